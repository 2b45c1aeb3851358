//! Arrays made place by place.
ghost use Rattle.std.specs.Prelude.{ℕ, ◌<◌, ◌≤◌};
ghost use Rattle.grading.specs.Tabulating.{Tabulates};

/// What is made of each number below the count, at its place; the places past them stay blank.
pub fn tabulate<T: Copy, const N: usize, F: Fn(u8) -> T>(count: u8, blank: T, make: F) -> [T; N]
    requires within { count ≤ N }
    requires callable { (k : ℕ) → k < count → F.pre make k }
    ensures { Tabulates (F.post make) count result }
{
    let mut all = [blank; N];
    for (k, item) in all[..count as usize].iter_mut().enumerate() {
        *item = make(k as u8);
    }
    all
}
