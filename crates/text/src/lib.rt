// Numbers, bytes, keys and intervals as text, put at a place of a lent output, as the methods of `misc::put::Put` put bytes: where there is
// room for all of the text it is put there, and the place moves behind it; where there isn't, nothing is written, and the place stays.
// What they put is said by `decimal`, `hex`, `uuid_text`, `key_text`, `interval_text` and `refused_text` of specs/.
#![tactic(auto)]

pub mod digits;
pub mod intervals;
pub mod keys;
pub mod lines;
