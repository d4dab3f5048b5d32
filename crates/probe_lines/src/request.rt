// The numbers of a request: which call it is, and the two that some calls take.
#[derive(Clone, Copy)]
pub struct Request {
    // a number: the list of requests names a call so
    pub call: u8,
    pub event_type: u8,
    pub number: u64,
}
