// What a call sees of a state, and writing back what it makes of that.
ghost use Rattle.std.specs.Prelude.{◌≡◌, ◌<◌};
ghost use Rattle.protocol.specs.{Limits.{most_cores, most_lines}, Machine.written};

use protocol::{Cell, Effect, Opening, Pieces, State};

// The core that a call is about and the pieces that it looks at; the core and the pieces' number, the line, are indices of the state's
// arrays.
#[derive(Clone, Copy)]
pub struct Seen {
    pub core: usize,
    pub pieces: Pieces,
    ghost core_low: { core < most_cores },
    ghost line_low: { pieces.number < most_lines },
}

impl Seen {
    // Writes a step's effect on the core and the line back into a state.
    pub fn write_back(&self, state: &mut State, effect: Effect)
        ensures { state.new ≡ written state.old self.now.core self.now.pieces.number effect }
    {
        let line = self.pieces.number;
        state.core[self.core] = effect.core;
        state.cell[self.core * Opening::MOST_LINES + line] = Cell { copy: effect.copy };
        state.line[line] = effect.line;
    }
}
