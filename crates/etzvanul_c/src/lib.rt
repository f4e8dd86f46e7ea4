// The calls that the controller's host makes, exported to C: each is the call of the same name in crates/etzvanul, with its clauses. A crate is a
// library or an archive, not both. include/etzvanul.h tells a C programmer what each call does.
#![tactic(auto)]

ghost use Rattle.std.specs.Prelude.{◌≡◌};
ghost use Rattle.etzvanul.specs.HostCall.{host_number, host_bytes, start_number, start_bytes, check_number, depth_call};

// One event on the field whose image this is: the new image goes to the front of out.
#[unsafe(no_mangle)]
pub extern "C" fn etzvanul_step(image: &[u8], event: &[u8], out: &mut [u8]) -> u64
    ensures number { result ≡ host_number image.now event.now out.old }
    ensures bytes { out.new ≡ host_bytes image.now event.now out.old }
{
    etzvanul::etzvanul_step(image, event, out)
}

// Where a host starts: the image of the fresh field.
#[unsafe(no_mangle)]
pub extern "C" fn etzvanul_fresh(out: &mut [u8]) -> u64
    ensures number { result ≡ start_number out.old }
    ensures bytes { out.new ≡ start_bytes out.old }
{
    etzvanul::etzvanul_fresh(out)
}

// Whether an image is accepted.
#[unsafe(no_mangle)]
pub extern "C" fn etzvanul_check(image: &[u8]) -> u64
    ensures { result ≡ check_number image.now }
{
    etzvanul::etzvanul_check(image)
}

// How far the owner of an object is from a node.
#[unsafe(no_mangle)]
pub extern "C" fn etzvanul_depth(image: &[u8], node: u8, object: u8) -> u64
    ensures { result ≡ depth_call image.now node object }
{
    etzvanul::etzvanul_depth(image, node, object)
}
