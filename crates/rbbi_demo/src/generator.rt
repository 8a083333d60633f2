//! The generator of numbers and characters.
ghost use Rattle.std.specs.Prelude.{◌≡◌, ◌<◌, ◌%◌};
ghost use Rattle.rbbi_demo.specs.Generator as spec;

/// The characters that are drawn, by their numbers.
const CHARACTERS: [char; 8] = ['a', 'b', 'c', '1', '2', ' ', '.', '\u{308}'];

/// A linear congruential generator. Each draw sets the state, and gives the state without its low
/// eight bits, whose periods are short.
#[derive(Drop)]
pub(crate) struct Generator {
    /// The state, at first the number that the generator is made from.
    pub(crate) state: u32,
}

impl Generator {
    /// The generator of this number.
    pub(crate) fn new(seed: u32) -> Generator
        ensures { result.state ≡ seed }
    {
        Generator { state: seed }
    }

    /// Draws a number.
    fn draw(&mut self) -> u32
        ensures state { self.new.state ≡ spec.next_state self.old.state }
        ensures number { result ≡ spec.drawn self.old.state 1 }
    {
        let state = (u64::from(self.state) * 1_103_515_245 + 12345) % 2_147_483_648;
        self.state = state as u32;
        self.state / 256
    }

    /// Draws a number below another: what is left of it in a division.
    pub(crate) fn below(&mut self, count: u32) -> u32
        requires { 0 < count }
        ensures state { self.new.state ≡ spec.next_state self.old.state }
        ensures number { result ≡ spec.drawn self.old.state 1 % count }
        ensures below { result < count }
    {
        self.draw() % count
    }

    /// Draws a character.
    pub(crate) fn character(&mut self) -> char
        ensures state { self.new.state ≡ spec.next_state self.old.state }
        ensures character { result ≡ spec.drawn_character self.old.state 1 }
    {
        CHARACTERS[self.below(8) as usize]
    }
}
