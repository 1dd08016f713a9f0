// What a walk over a chain keeps of its pages.
ghost use Rattle.std.specs.Prelude.{◌≡◌, ◌≤◌, ◌++◌, ◌∷◌, [], ℕ, List, OnOk, length};
ghost use Rattle.page_spec.specs.Chains.{content_of};

use std::alloc::AllocError;

/// A list that keeps a part of each page that a walk comes to.
pub trait Keeper {
    // what was kept so far
    ghost kept: { Self → List ℕ };

    // what is kept of a page, by the usable bytes, its number and its bytes
    ghost part: { ℕ → ℕ → List ℕ → List ℕ };

    /// Appends what it keeps of a page.
    fn keep(&mut self, usable: u32, number: u32, page: &[u8]) -> Result<(), AllocError>
        requires least { 4 ≤ usable }
        requires within { usable ≤ length page.now }
        ensures { OnOk result (kept self.new ≡ kept self.old ++ part usable number page.now) };
}

/// The numbers of the pages.
impl Keeper for Vec<u32> {
    ghost kept = { λ numbers. numbers.items };

    ghost part = { λ usable number page. number ∷ [] };

    fn keep(&mut self, usable: u32, number: u32, page: &[u8]) -> Result<(), AllocError> {
        self.push(number)?;
        Ok(())
    }
}

/// The bytes that the pages hold behind their links.
impl Keeper for Vec<u8> {
    ghost kept = { λ bytes. bytes.items };

    ghost part = { λ usable number page. content_of usable page };

    fn keep(&mut self, usable: u32, number: u32, page: &[u8]) -> Result<(), AllocError> {
        self.extend_from_slice(&page[4..usable as usize])
    }
}
