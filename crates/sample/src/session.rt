// An engine with its two buffers. It prints what a call answered, and a line as a core sees it, on standard output. A write that fails is
// passed over.
use engine::Returned;
use protocol::{Given, Opening, Place, State};

// What a call takes, and what the last one gave.
#[derive(Drop)]
pub(crate) struct Session<const P: usize, const S: usize> {
    private: [u8; P],
    shared: [u8; S],
    last: Returned,
}

impl<const P: usize, const S: usize> Session<P, S> {
    // A fresh engine, on buffers of zeros.
    pub(crate) fn open(opening: Opening) -> Self {
        Session::on(engine::open(opening).into())
    }

    // What an earlier call gave, on buffers of zeros.
    pub(crate) fn on(last: Returned) -> Self {
        Session {
            private: [0; P],
            shared: [0; S],
            last,
        }
    }

    pub(crate) fn last(&self) -> Returned {
        self.last
    }

    // Makes a call, by its name or by `step`, on the state and the two buffers.
    pub(crate) fn call<F: FnOnce(State, &mut [u8], &mut [u8]) -> Returned>(&mut self, make: F)
        requires { F.IsAlwaysCallable make }
    {
        self.last = make(self.last.state, &mut self.private, &mut self.shared);
    }

    // Prints the record of what was answered last, the n-th, with the bytes of its commit.
    pub(crate) fn print_record(&self, rt: &impl Print, n: u64) {
        let last = self.last;
        let mut out = [0u8; 256];
        let bytes = engine::commit_bytes(&self.private, last.start, last.count);
        let record = listing::put_record(&mut out, 0, Place(n), last.answer, Given::Bytes, bytes);
        write(rt, &out, record);
    }

    // Prints that record, and a line as a core sees it.
    pub(crate) fn print(&self, rt: &impl Print, n: u64, core: usize, line: usize) {
        self.print_record(rt, n);
        let _ = print!(rt; "shown core={core} line={line}");
        let mut out = [0u8; 256];
        let bytes = engine::show(self.last.state, &self.private, &self.shared, core, line);
        let data = listing::put_with_data(&mut out, 0, b" data=", Given::Bytes, bytes);
        write(rt, &out, data);
    }
}

// Writes what was put at the start of a buffer, up to where it ends.
fn write(rt: &impl Print, out: &[u8], end: Option<usize>) {
    if let Some(text) = end.and_then(|end| out.get(..end)) {
        let _ = rt.write_all(text);
    }
}
