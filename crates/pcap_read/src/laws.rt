ghost use Rattle.std.specs.Prelude.{◌≡◌, ℕ, ◌≤◌, List, ◌++◌, length, map, Ok};
ghost use Rattle.std.specs.List.{AllByRecursion, concat};
ghost use Rattle.pcap_read.specs.declared.format.Format.{Format as Header};
ghost use Rattle.pcap_read.specs.declared.capture_fault.CaptureFault.{CaptureFault as Kind};
ghost use Rattle.pcap_read.specs.Reading.{Captured, Place, Open, AtBoundary, Closed, header_of, IsRecord, record_of, HasFront};

/// Laws of the front of a string of bytes, of which at most `limit` records are read: its records and the
/// place where they end. It does nothing.
pub fn one_front()
    // Each string has a front, and no other.
    ensures exists { (limit : ℕ) (bytes : List ℕ)
        → (records : List Captured) × (place : Place) × HasFront limit bytes records place }
    ensures unique { (limit : ℕ) (bytes : List ℕ) (records others : List Captured)
        (place other : Place)
        → HasFront limit bytes records place → HasFront limit bytes others other
        → (records ≡ others) × (place ≡ other) }

    // A header and whole records behind it are a capture of these records, which ends there.
    ensures whole { (limit : ℕ) (header : List ℕ) (format : Header) (pieces : List (List ℕ))
        → length header ≡ 24 → header_of header ≡ Ok format
        → AllByRecursion (IsRecord format) pieces → length pieces ≤ limit
        → HasFront limit (header ++ concat pieces) (map (record_of format) pieces) (Open AtBoundary) }

    // As more bytes come, the records stay, and so does a fault that stands there at once.
    ensures grows { (limit : ℕ) (bytes more : List ℕ) (records others : List Captured)
        (place other : Place)
        → HasFront limit bytes records place → HasFront limit (bytes ++ more) others other
        → (behind : List Captured) × (others ≡ records ++ behind) }
    ensures stays { (limit : ℕ) (bytes more : List ℕ) (records : List Captured) (fault : Kind)
        → HasFront limit bytes records (Closed fault) → HasFront limit (bytes ++ more) records (Closed fault) }
{}
