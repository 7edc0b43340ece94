// Reads the first 16,384 bytes of standard input as a point file and says how large its tree is, in one line:
// `nodes 3 order 9 bytes 340`, or `refused 6` with the cause's number. Its 4,096 words of scratch are enough for g up to 16, of a file in working form up to 40.
#![tactic(auto)]

use mascon_tree::build_mascon_tree;
use number::cause_number;
use reading::read_full;
use rtm1::Counts;
use rym1::Cause;
use std::io;

fn report(rt: &impl Print, built: Result<Counts, Cause>) -> io::Result<()> {
    match built {
        Ok(
            Counts {
                length,
                nodes,
                order,
            },
        ) => println!(rt; "nodes {nodes} order {order} bytes {length}"),
        Err(cause) => {
            let number = cause_number(cause);
            println!(rt; "refused {number}")
        }
    }
}

fn main(rt: HostRuntime) -> io::Result<()> {
    let mut input: [u8; 16384] = [0; 16384];
    let mut scratch: [u32; 4096] = [0; 4096];
    let mut out: [u8; 32768] = [0; 32768];
    let n = read_full(&mut rt.stdin(), &mut input)?;
    report(&rt, build_mascon_tree(&input[..n], &mut scratch, &mut out))
}
