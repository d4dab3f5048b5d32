// Laws of reading binlog files, without code: that the caller's loop of steps through chunks comes to the run over the file's bytes, which ids
// are members after any file, and that a run which is stopped, saved and fed the whole file again ends in identical bytes. They are about
// the definitions that `begin`, `step` and `end` of `binlog_reader` promise, so they hold of what those functions answer and write.
#![tactic(auto)]
