// What is read, and what of it stays.
ghost use Rattle.retain.specs.Layers.{Bodies};

use crate::Keep;

// The bodies of the chunk that is read, and which of its times stay.
#[derive(Clone, Copy)]
pub(crate) struct Source<'a> {
    pub keep: Keep<'a>,
    pub keys: &'a [u64],
    pub val_ends: &'a [u64],
    pub vals: &'a [u64],
    pub time_ends: &'a [u64],
    pub times: &'a [u64],
    pub diff_ends: &'a [u64],
    pub diffs: &'a [u64],
    pub ghost together: { Bodies keys.now val_ends.now vals.now time_ends.now times.now diff_ends.now diffs.now },
}
