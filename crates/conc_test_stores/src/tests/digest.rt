use super::expect::same;
use conc_data_digests::InputDigest;
use conc_types::{Digests, NoMemory};
use std::alloc::Global;

// The digest of the setup `s` and the script `ab`.
fn begun(alloc: Global) -> Result<InputDigest, NoMemory> {
    Ok(InputDigest::new(alloc, b"s".to_vec(alloc)?, b"ab".to_vec(alloc)?))
}

// And of the table `t.csv`, whose bytes are kept.
fn kept(alloc: Global) -> Result<Digests, NoMemory> {
    let digest = begun(alloc)?.keep_table(b"t.csv".to_vec(alloc)?, b"k,v".to_vec(alloc)?)?;
    Ok(digest.finish().both())
}

// `printf` of the message `00 .. 01 s 00 .. 02 ab 00 .. 05 t.csv 00 .. 03 k,v` into sha256sum, and of the same
// without the script, which is `00 .. 02 ab`.
#[test]
fn digests_an_input(rt: HostRuntime) -> Result<(), NoMemory> {
    let wanted = Digests {
        full: [
            0xd9, 0x3c, 0x51, 0xe1, 0x4e, 0x6c, 0x14, 0xc2, 0x7d, 0x12, 0x8d, 0x8f, 0x5e, 0x2a,
            0x06, 0x27, 0x4e, 0xa4, 0x64, 0x82, 0xcf, 0xc2, 0x96, 0xf9, 0xc1, 0x18, 0xee, 0x9b,
            0xef, 0xa2, 0xc3, 0xda,
        ],
        base: [
            0x16, 0xf1, 0x82, 0x87, 0x7d, 0x0b, 0xb5, 0xfe, 0x26, 0xfd, 0xa5, 0xa7, 0x76, 0x70,
            0xb5, 0x2c, 0x84, 0x83, 0xec, 0x14, 0xf6, 0xd0, 0x04, 0xca, 0x2b, 0x88, 0x6f, 0x0f,
            0x4a, 0x2e, 0x99, 0x9e,
        ],
    };
    let alloc = rt.alloc();
    same(&rt, kept(alloc)?, wanted);
    let digest = begun(alloc)?.with_table_on_threads(&rt, b"t.csv", b"k,v");
    same(&rt, digest.finish().both(), wanted);
    Ok(())
}
