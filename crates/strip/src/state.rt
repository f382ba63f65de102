// The state of a strip, and the test of which line advances next.
ghost use Rattle.std.specs.Prelude.{◌≡◌};
ghost use Rattle.strip.specs.Rule.{OnTwoLines, step_of};

// The strip has reached point a of the outer line, of p segments, and point b of the inner line, of r segments.
#[derive(Clone, Copy, Drop)]
pub struct Strip {
    pub a: u32,
    pub b: u32,
    pub p: u32,
    pub r: u32,
}

// Which line advanced, and the state after the step.
#[derive(Clone, Copy, Drop)]
pub struct Step {
    pub outer: bool,
    pub next: Strip,
}

impl Strip {
    pub fn step(mut self) -> Step
        requires { OnTwoLines self }
        ensures { result ≡ step_of self }
    {
        let a = self.a;
        let b = self.b;
        let p = self.p;
        // m is twice the middle of the outer line's next segment. Beyond the middle of the outer line the inner line advances
        // at a tie, so 1 is added.
        let m = 2 * a + 1;
        let mut x = m * self.r;
        if p < m {
            x += 1;
        }
        if x <= (2 * b + 1) * p {
            self.a = a + 1;
            return Step {
                outer: true,
                next: self,
            };
        }
        self.b = b + 1;
        Step {
            outer: false,
            next: self,
        }
    }
}
