// A typed state of whose file no term writes a region variable that a frame's map does not have: each map of a frame, as seven bytes, puts
// a region for every variable.
ghost use Rattle.positions.specs.Maps.{Narrow};
ghost use Rattle.registers.specs.Once.{Narrow-prop};

use objects::typed::TypedState;

#[derive(Clone, Copy)]
pub struct MappedState<'a> {
    pub typed: TypedState<'a>,
    pub ghost narrow: { Narrow typed.state.file.now } by { Narrow-prop typed.state.file.now },
}
