use std::rt::Env;
use std::{env, io};

/// The exit status of want of memory.
pub const OUT_OF_MEMORY: u8 = 6;

/// The words of the command line behind the program's name; none where one of them is no text in UTF-8.
/// It fails where memory ran out.
pub fn words_given<R: Env + AllocGlobal>(rt: &R) -> io::Result<Vec<String>> {
    let mut words = Vec::new(rt.alloc());
    match env::args(rt) {
        Ok(arguments) => {
            for word in arguments.skip(1) {
                words.push(word)?;
            }
            Ok(words)
        }
        Err(error) if error.kind() == io::ErrorKind::InvalidData => Ok(words),
        Err(error) => Err(error),
    }
}
