// A display whose pixel may depend on its left neighbour.
ghost use Rattle.std.specs.Prelude.{◌≡◌, ℕ, ◌<◌, ◌≤◌, IfSome};
ghost use Rattle.display.specs.Machine.{Lawful, Meaning};

// Every question is answered from the meaning, for every state and code that can be asked about.
pub trait DisplayMachine {
    ghost meaning: { Self → Meaning };

    fn states(&self) -> u16
        ensures { result ≡ (meaning self.now).states };

    fn codes(&self) -> u8
        ensures { result ≡ (meaning self.now).codes };

    fn start(&self) -> u16
        ensures { result ≡ (meaning self.now).start };

    fn step(&self, state: u16, code: u8) -> Option<u16>
        ensures value { result ≡ (meaning self.now).step state code }
        ensures below { IfSome result (λ t. t < (meaning self.now).states) };

    fn shown(&self, state: u16) -> u16
        ensures { result ≡ (meaning self.now).shown state };

    fn holds(&self, code: u8) -> bool
        ensures { result ≡ (meaning self.now).holds code };

    ghost lawful: { (m : Self) → Lawful (meaning m) };

    // These two stand in `lawful` too; by themselves they are found where generic code needs a bound.
    ghost few_states: { (m : Self) → (meaning m).states ≤ 4096 };

    ghost colour_below: { (m : Self) (s : ℕ) → (meaning m).shown s < 4096 };
}
