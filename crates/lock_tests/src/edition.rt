use fw_base::Numbered;

/// An edition that is its number.
#[derive(Clone, Copy, Debug)]
pub(crate) struct Edition {
    pub(crate) number: u64,
}

impl Numbered for Edition {
    type Tag = u64;

    type Label = u64;

    ghost number = { λ e. e.number };

    ghost tag = { λ e. e.number };

    ghost name = { λ e. e.number };

    fn number(&self) -> u64 {
        self.number
    }
}
