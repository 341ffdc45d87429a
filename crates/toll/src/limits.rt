// The largest value of a toll that counts acts or clock readings: what would pass it is it.
pub const TOP: u32 = 1_000_000_000;
