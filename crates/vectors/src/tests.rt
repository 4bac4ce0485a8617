// What is tested: packets written down by hand, the same packets damaged, the edges of lengths, times, addresses and
// codes, hashes of another implementation, and the edges of the stages. The bytes of every example come from the format, and none from the writer that is tested.
mod addresses;
mod codes;
mod damage;
mod determinants;
mod examples;
mod hashes;
mod packets;
mod refusals;
mod round_trips;
mod stages;
mod support;
mod times;
mod too_long;
mod wrapper;
