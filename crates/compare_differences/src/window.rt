// The window of numbers next to a number; these are tested first.
ghost use Rattle.std.specs.Prelude.{◌≤◌};

// Returns the start of the window: 64 before `near`, or 0.
pub(crate) fn window_start(near: usize, count: usize) -> usize
    ensures { result ≤ count }
{
    near.saturating_sub(64).min(count)
}

// Returns the end of the window: 128 after its start, or `count`.
pub(crate) fn window_end(start: usize, count: usize) -> usize
    requires { start ≤ count }
    ensures { (start ≤ result) × (result ≤ count) }
{
    start.saturating_add(128).min(count)
}
