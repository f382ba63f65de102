// One line of a strip: the vertex numbers along it.
ghost use Rattle.std.specs.Prelude.{◌≡◌, suc, ◌≤◌, ◌<◌};

// Points 0 to `count`. Their vertex numbers start at `first` and increase by `step` modulo 65536, so a step of 65535 counts
// down. The last point has a number of its own, for a line that ends where its ring starts. A line has at most 64 segments.
#[derive(Clone, Copy, Drop)]
pub struct Line {
    pub first: u16,
    pub step: u16,
    pub count: u32,
    pub last: u16,
    pub ghost short: { count ≤ 64 },
}

impl Line {
    ghost use Rattle.strip.specs.Lines.{vertex};

    // Returns the vertex at point i.
    pub fn vertex_at(self, i: u32) -> u16
        requires { i ≤ self.count }
        ensures { result ≡ vertex self i }
    {
        let count = self.count;
        if i == count {
            return self.last;
        }
        ((self.first as u32 + self.step as u32 * i) % 65536) as u16
    }

    // Returns the vertex after point i, if that is not the last point; x is the vertex at point i.
    pub fn next(self, i: u32, x: u16) -> u16
        requires inside { suc i < self.count }
        requires here { x ≡ vertex self i }
        ensures { result ≡ vertex self (suc i) }
    {
        ((x as u32 + self.step as u32) % 65536) as u16
    }

    // Returns the vertex after point i; x is the vertex at point i.
    pub fn after(self, i: u32, x: u16) -> u16
        requires inside { i < self.count }
        requires here { x ≡ vertex self i }
        ensures { result ≡ vertex self (suc i) }
    {
        let count = self.count;
        if i + 1 == count {
            self.last
        } else {
            self.next(i, x)
        }
    }
}
