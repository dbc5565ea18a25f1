mod ends;
mod publication;
mod publication_of_two;
mod seats;
mod steps_of_two;
mod threads;
mod told;
