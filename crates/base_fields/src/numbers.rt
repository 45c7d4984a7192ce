ghost use Rattle.std.specs.Prelude.{◌≡◌, ◌+◌, ◌-◌, ◌*◌, ◌/◌, ◌^◌, ◌<◌, ◌≤◌, ◌≢◌};
ghost use Rattle.base_fields.specs.Numbers.{IsLeastMultiple, guid_order};

/// The least multiple of `to` that isn't below `n`.
pub fn round_up(n: u64, to: u64) -> u64
    requires nonzero { to ≢ 0 }
    // The greatest multiple that a u64 holds isn't below n.
    requires fits { n ≤ (2 ^ 64 - 1) / to * to }
    ensures least { IsLeastMultiple n to result }
    ensures near { result < n + to }
{
    n.next_multiple_of(to)
}

/// The bytes of a GUID, given as RFC 9562 writes them, in the order in which a GUID partition table stores them
/// (UEFI 2.10, appendix A), and the other way round.
pub fn guid_bytes(id: [u8; 16]) -> [u8; 16]
    ensures order { result ≡ guid_order id }
    ensures inverse { guid_order result ≡ id }
{
    let [a, b, c, d, e, f, g, h, i, j, k, l, m, n, o, p] = id;
    [d, c, b, a, f, e, h, g, i, j, k, l, m, n, o, p]
}
