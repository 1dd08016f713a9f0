// Stores of numbered pages.
ghost use Rattle.std.specs.Prelude.{◌≡◌, ◌≤◌, ℕ, Option, OnOk, length};
ghost use Rattle.common_spec.specs.Told.{Finds, Leads};
ghost use Rattle.common_spec.specs.Counts.{CountsFaults};
ghost use Rattle.page_spec.specs.Pages.{Pages, with_page};
ghost use Rattle.page_store.specs.Calls.{KeepsUpTo};

/// Numbered pages of one size, which can be read. Where the store tells its pages, `pages` is the map that its calls read and change. `faults` is what it keeps
/// of the calls that failed, and `fault_count` their number, which never falls. `Fails` says what is so where a call answers a fault: that it is
/// counted and kept, or that memory is wanting.
///
/// `fixed` is what no call changes, also none that writes: the identity of what the store stands on, and what is to be known of that
/// when the store is given up.
pub trait PageRead {
    type Fault;

    ghost size: { Self → ℕ };

    ghost usable: { Self → ℕ };

    ghost count: { Self → ℕ };

    ghost pages: { Self → Option Pages };

    ghost Faults: { Type 0 };

    ghost faults: { Self → Faults };

    ghost fault_count: { Faults → ℕ };

    ghost Fails: { Faults → Faults → Self.Fault → Type 0 };

    ghost Fixed: { Type 0 };

    ghost fixed: { Self → Fixed };

    /// The size of a page in bytes.
    fn page_size(&self) -> u32
        ensures { result ≡ size self.now };

    /// The bytes of a page that are not reserved.
    fn usable(&self) -> u32
        ensures { result ≡ usable self.now };

    /// How many pages there are. Their numbers count from 1.
    fn count(&self) -> u32
        ensures { result ≡ count self.now };

    /// Fills a slice of one page. After a fault it holds any bytes.
    fn page(&mut self, number: u32, into: &mut [u8]) -> Result<(), Self::Fault>
        requires first { 1 ≤ number }
        requires within { number ≤ count self.old }
        requires whole { length into.old ≡ size self.old }
        ensures pages { Finds (pages self.old) (pages self.new) result (λ _ m. into.new ≡ m number) }
        ensures count { count self.new ≡ count self.old }
        ensures size { size self.new ≡ size self.old }
        ensures usable { usable self.new ≡ usable self.old }
        ensures fixed { fixed self.new ≡ fixed self.old }
        ensures cause { CountsFaults fault_count Fails (faults self.old) (faults self.new) result };
}

/// Numbered pages that can also be written. After a fault nothing is said of the pages.
pub trait PageWrite: PageRead {
    /// Writes one page.
    fn set_page(&mut self, number: u32, bytes: &[u8]) -> Result<(), Self::Fault>
        requires first { 1 ≤ number }
        requires within { number ≤ Self.count self.old }
        requires whole { length bytes.now ≡ Self.size self.old }
        ensures pages { OnOk result (Leads (λ m k. k ≡ with_page m number bytes.now) (Self.pages self.old) (Self.pages self.new)) }
        ensures count { Self.count self.new ≡ Self.count self.old }
        ensures size { Self.size self.new ≡ Self.size self.old }
        ensures usable { Self.usable self.new ≡ Self.usable self.old }
        ensures fixed { Self.fixed self.new ≡ Self.fixed self.old }
        ensures cause { CountsFaults Self.fault_count Self.Fails (Self.faults self.old) (Self.faults self.new) result };

    /// Sets how many pages there are. A new page holds any bytes until it is written.
    fn set_count(&mut self, count: u32) -> Result<(), Self::Fault>
        ensures pages { OnOk result (Leads (KeepsUpTo (Self.count self.old) count) (Self.pages self.old) (Self.pages self.new)) }
        ensures count { OnOk result (Self.count self.new ≡ count) }
        ensures size { Self.size self.new ≡ Self.size self.old }
        ensures usable { Self.usable self.new ≡ Self.usable self.old }
        ensures fixed { Self.fixed self.new ≡ Self.fixed self.old }
        ensures cause { CountsFaults Self.fault_count Self.Fails (Self.faults self.old) (Self.faults self.new) result };
}
