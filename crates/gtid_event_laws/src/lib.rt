// Laws of GTID records, without code: a writable record that is written reads back equal, from exactly its bytes, and every record
// that was read can be written. They are about the definitions that `gtid_event_read` and `gtid_event_write` promise, so they hold
// of whatever those crates' functions read and write.
#![tactic(auto)]
