//! A state of the loop: four whole numbers of any size.
ghost use Rattle.std.specs.Prelude.{◌≡◌};

#[derive(Clone, Copy)]
pub struct State {
    parts: [i64; 4],
}

impl State {
    pub fn new(parts: [i64; 4]) -> State
        ensures { result.parts ≡ parts }
    {
        State { parts }
    }

    pub fn parts(&self) -> [i64; 4]
        ensures { result ≡ self.now.parts }
    {
        self.parts
    }
}
