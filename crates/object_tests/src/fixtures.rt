ghost use Rattle.std.specs.Prelude.{◌≡◌, ◌==◌, cond};

use fid_space::Fid;

/// A client's FID on the first target, and the FID of zeros for 0.
pub fn fid(oid: u32) -> Fid
    ensures { result ≡ record { seq = cond (oid == 0) 0 0x200000400; oid = oid; ver = 0 } }
{
    let seq = if oid == 0 { 0 } else { 0x2_0000_0400 };
    Fid { seq, oid, ver: 0 }
}
