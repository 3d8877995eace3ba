// A refusal of a call that takes two sheets: it names one of them, or neither.
use crate::refusal::Refusal;

// Which of the two sheets a refusal names.
#[derive(Clone, Copy, PartialEq, Eq, Debug)]
pub enum Named {
    Net,
    Table,
    Neither,
}

// A refusal, and the sheet that it names.
#[derive(Clone, Copy, PartialEq, Eq, Debug)]
pub struct SheetRefusal {
    pub named: Named,
    pub refusal: Refusal,
}
