/// What is edited.
#[derive(Clone, Copy)]
pub enum EditKind {
    /// One setting.
    Settings,
    /// One disabled set.
    Sets,
    /// A table of 100 entries beside the large one, of which one is put in and taken out in turn.
    Table,
}

impl EditKind {
    /// The kind of that name.
    pub fn of(word: &str) -> Option<EditKind> {
        match word {
            "settings" => Some(EditKind::Settings),
            "sets" => Some(EditKind::Sets),
            "table" => Some(EditKind::Table),
            _ => None,
        }
    }
}
