// A date and a time of day, as people write them. It stands in a file of its own since the specification names it.

/// A date of the Gregorian calendar and a time of day in UTC. Months and days are counted from 1.
#[derive(Clone, Copy)]
pub struct DateTime {
    pub year: u32,
    pub month: u32,
    pub day: u32,
    pub hour: u32,
    pub minute: u32,
    pub second: u32,
    pub millisecond: u32,
}
