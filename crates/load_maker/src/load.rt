ghost use Rattle.std.specs.Prelude.{◌≡◌, ◌≤◌, IfOk};
ghost use Rattle.load_maker.specs.Load as load;

use crate::made_capture::MadeCapture;
use fw_base::{MOST_LOAD_RECORDS, OutOfMemory};
use itoa::Buffer;
use std::alloc::Global;

/// More than a script has.
const SCRIPT_BYTES: usize = 256;

const SCRIPT_START: &[u8] =
    b"add 100 check-state\nadd 200 allow tcp from 10.0.0.0/24 to any 80 setup keep-state\nadd 300 allow udp from 10.0.0.0/24 to any 53 keep-state\nadd 400 allow icmp from any to any icmptypes 0,8\nadd 500 deny ip from any to any\nlive\nafter ";

/// A script of rules with a live edit, and a capture that it is replayed beside.
#[derive(Drop)]
pub struct Load {
    pub script: Vec<u8>,
    pub capture: MadeCapture,
}

/// The script of a load of so many records.
#[tactic(auto, unfolding(crate::specs::Load::load_script, crate::specs::Load::script_start))]
fn script(alloc: Global, n: u32) -> Result<Vec<u8>, OutOfMemory>
    ensures { IfOk result (λ bytes. bytes.items ≡ load.load_script n) }
{
    let mut digits = Buffer::new();
    let half = digits.format(n / 2).as_bytes();
    let mut bytes = Vec::with_capacity(alloc, SCRIPT_BYTES)?;
    bytes.extend_from_slice(SCRIPT_START)?;
    bytes.extend_from_slice(half)?;
    bytes.extend_from_slice(b"\ndelete 300\n")?;
    Ok(bytes)
}

/// The load of so many records, 1 to 1,000,000. Only its script takes memory.
pub fn make(alloc: Global, n: u32) -> Result<Load, OutOfMemory>
    requires { (1 ≤ n) × (n ≤ MOST_LOAD_RECORDS) }
    ensures script { IfOk result (λ made. made.script.items ≡ load.load_script n) }
    ensures capture { IfOk result (λ made. made.capture ≡ load.load_capture n) }
{
    Ok(Load {
        script: script(alloc, n)?,
        capture: MadeCapture::new(n),
    })
}
