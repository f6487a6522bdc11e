// The words that the first argument can be.
#[derive(Clone, Copy, PartialEq, Eq, Debug)]
pub enum Word {
    List,
    Outline,
    Modes,
    Shift,
    Move,
    Record,
    Newer,
    Sheet,
    Table,
    Amr,
    Salvage,
    Help,
}

#[derive(Clone, Copy, PartialEq, Eq, Debug)]
pub struct NoSuchWord;

impl TryFrom<&[u8]> for Word {
    type Error = NoSuchWord;

    fn try_from(text: &[u8]) -> Result<Word, NoSuchWord> {
        match text {
            b"list" => Ok(Word::List),
            b"outline" => Ok(Word::Outline),
            b"modes" => Ok(Word::Modes),
            b"shift" => Ok(Word::Shift),
            b"move" => Ok(Word::Move),
            b"record" => Ok(Word::Record),
            b"newer" => Ok(Word::Newer),
            b"sheet" => Ok(Word::Sheet),
            b"table" => Ok(Word::Table),
            b"amr" => Ok(Word::Amr),
            b"salvage" => Ok(Word::Salvage),
            b"help" => Ok(Word::Help),
            _ => Err(NoSuchWord),
        }
    }
}
