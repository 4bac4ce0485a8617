// What is tested: which set-ups are refused; every refusal and every reject of the calls, in the order in which they are judged; the
// same calls with both hashes; and the duties of two connectors.
mod answering;
mod duties;
mod making;
mod peers;
mod preparing;
