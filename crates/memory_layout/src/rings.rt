ghost use Rattle.std.specs.Prelude.{◌≡◌, sum_by, zip};
ghost use Rattle.cm_core.specs.Measures as measures;
ghost use Rattle.memory_layout.specs.Held.{held};

use crate::bytes::bytes_of;
use cm_core::Chain;

// The bytes of the entries that a chain holds back, of its delay and its extra delay.
fn ring_bytes(chain: &Chain, extra: u32) -> u64
    ensures { result ≡ held (measures.ring_bytes (chain.now, extra)) }
{
    chain
        .delay
        .saturating_add(u64::from(extra))
        .saturating_mul(bytes_of(chain.shape.as_slice()))
}

/// The bytes of the rings of chains, whose extra delays stand in the same order.
pub fn rings_bytes(chains: &[Chain], extra: &[u32]) -> u64
    ensures { result ≡ held (sum_by measures.ring_bytes (zip chains.now extra.now)) }
{
    let mut bytes: u64 = 0;
    let mut rest = chains;
    let mut delays = extra;
    while let Some((chain, others)) = rest.split_first() {
        let Some((delay, later)) = delays.split_first() else {
            return bytes;
        };
        bytes = bytes.saturating_add(ring_bytes(chain, *delay));
        rest = others;
        delays = later;
    }
    bytes
}
