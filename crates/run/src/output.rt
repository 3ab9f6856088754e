// The output of a run.
ghost use Rattle.std.specs.Prelude.{◌≡◌, ◌+◌, ◌≤◌, length};
ghost use Rattle.run.specs.Buffers.{overwritten};
ghost use Rattle.run.specs.Progress.{reply_bytes};

use crate::record::divisor_bytes;
use crate::reply::Reply;

// The bytes that the host lends, and how many of them are written, from their start on. No Vec: its memory is the host's. Drop alone:
// nothing prints or compares that memory.
#[derive(Drop)]
pub(crate) struct Output<'o> {
    pub(crate) bytes: &'o mut [u8],
    pub(crate) written: usize,
}

impl<'o> Output<'o> {
    // Nothing is written yet.
    pub(crate) fn new(bytes: &'o mut [u8]) -> Output<'o>
        ensures bytes { result.bytes ≡ bytes.entry }
        ensures none { result.written ≡ 0 }
    {
        Output { bytes, written: 0 }
    }

    // Writes a reply behind what is written.
    pub(crate) fn write(&mut self, reply: Reply)
        requires { self.old.written + length (reply_bytes reply) ≤ length self.old.bytes.now }
        ensures place { self.new.written ≡ self.old.written + length (reply_bytes reply) }
        ensures bytes { self.new.bytes.now ≡ overwritten self.old.bytes.now self.old.written (reply_bytes reply) }
        ensures same_reference { self.new.bytes.ghost_name ≡ self.old.bytes.ghost_name }
    {
        match reply {
            Reply::Silent => {}
            Reply::Shown(register, d) => {
                self.put(&[16, register]);
                self.put(&divisor_bytes(d));
            }
            Reply::Refused(kind, why) => self.put(&[17, kind, why.number()]),
        }
    }

    // Writes bytes behind what is written.
    fn put(&mut self, bytes: &[u8])
        requires { self.old.written + length bytes.now ≤ length self.old.bytes.now }
        ensures place { self.new.written ≡ self.old.written + length bytes.now }
        ensures bytes { self.new.bytes.now ≡ overwritten self.old.bytes.now self.old.written bytes.now }
        ensures same_reference { self.new.bytes.ghost_name ≡ self.old.bytes.ghost_name }
    {
        let end = self.written + bytes.len();
        self.bytes[self.written..end].copy_from_slice(bytes);
        self.written = end;
    }
}
