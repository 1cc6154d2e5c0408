// The truth values of a formula.
ghost use Rattle.std.specs.Prelude.{◌≡◌, ◌/◌, Bool};
ghost use Rattle.commands.specs.Stack.{push as pushed, top as latest, neither as turned};

// At most 32 values in one word, the latest in its lowest bit.
#[derive(Clone, Copy)]
pub(crate) struct Stack(u32);

impl Stack {
    pub(crate) const EMPTY: Stack = Stack(0);

    pub(crate) fn push(self, value: bool) -> Stack
        ensures { result.0 ≡ pushed self.0 value }
    {
        Stack(self.0 % 0x8000_0000 * 2 + u32::from(value))
    }

    pub(crate) fn top(self) -> bool
        ensures { result ≡ latest self.0 }
    {
        self.0 % 2 == 1
    }

    // the latest two values as one
    pub(crate) fn join<F: Fn(bool, bool) -> bool>(self, joined: F) -> Stack
        requires { F.IsAlwaysCallable joined }
        ensures { (value : Bool) × F.post joined (latest (self.0 / 2)) (latest self.0) value × (result.0 ≡ pushed (self.0 / 4) value) }
    {
        let value = joined(Stack(self.0 / 2).top(), self.top());
        Stack(self.0 / 4).push(value)
    }

    // the latest value turned
    pub(crate) fn turn(self) -> Stack
        ensures { result.0 ≡ turned self.0 }
    {
        Stack(self.0 / 2).push(!self.top())
    }
}
