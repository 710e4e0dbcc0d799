// Prints the SHA-256 digest of standard input, in hexadecimal. `bench/sha256.sh` measures it.
#![tactic(auto)]

use digest::Sha256;
use std::io;
use std::io::Read;

// Hashes all that the input gives, a buffer at a time. A reader may never end, so the loop is bounded.
fn hash_all(rt: &HostRuntime) -> io::Result<[u8; 32]> {
    let mut input = rt.stdin();
    let mut buffer = vec![in rt.alloc(); 0u8; 65536]?;
    let mut running = Sha256::new();
    for _ in 0..u64::MAX {
        let n = input.read(buffer.as_mut_slice())?;
        if n == 0 {
            break;
        }
        running.update(&buffer[..n]);
    }
    Ok(running.finish())
}

fn main(rt: HostRuntime) -> io::Result<()> {
    let digest = hex::encode(rt.alloc(), hash_all(&rt)?)?;
    println!(rt; "{digest}")
}
