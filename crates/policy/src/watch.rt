// What a survey or a certificate speaks of: whether that row carries that permission in that slot.
#[derive(Debug, Clone, Copy, PartialEq, Eq)]
pub struct Watch {
    pub row: u32,
    pub slot: u32,
    pub permission: u32,
}
