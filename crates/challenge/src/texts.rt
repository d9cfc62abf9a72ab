// The texts of an answer: names and values, one after the other.
ghost use Rattle.std.specs.Prelude.{◌+◌, ◌*◌, ◌≤◌, ◌≡◌, ◌++◌, length};
ghost use Rattle.lines.specs.Text.{AtFront, Added, hex_text};
ghost use Rattle.challenge.specs.Texts.{named, results_text, codes_text};

// What every challenge has.
#[derive(Clone, Copy)]
pub(crate) struct Results {
    pub res: [u8; 8],
    pub ck: [u8; 16],
    pub ik: [u8; 16],
    pub ak: [u8; 6],
}

// MAC-A, by which the phone knows the network, and MAC-S, by which the network knows the phone.
#[derive(Clone, Copy)]
pub(crate) struct Codes {
    pub network: [u8; 8],
    pub phone: [u8; 8],
}

// Puts a text from a place on, and answers the place after it.
fn add_text(text: &[u8], output: &mut [u8], place: usize) -> usize
    requires { place + length text.now ≤ length output.old }
    ensures { Added text.now output.old place result output.new }
{
    place + lines::put_text(text, &mut output[place..]).unwrap()
}

// Puts octets as capital hex from a place on, and answers the place after them.
fn add_hex(octets: &[u8], output: &mut [u8], place: usize) -> usize
    requires { place + 2 * length octets.now ≤ length output.old }
    ensures { Added (hex_text octets.now) output.old place result output.new }
{
    place + lines::hex_of_octets(octets, &mut output[place..]).unwrap()
}

// Puts a name and its value from a place on, and answers the place after them.
fn add_named(name: &[u8], octets: &[u8], output: &mut [u8], place: usize) -> usize
    requires { place + (length name.now + 2 * length octets.now) ≤ length output.old }
    ensures { Added (named name.now octets.now) output.old place result output.new }
{
    let value_at = add_text(name, output, place);
    add_hex(octets, output, value_at)
}

// Puts two names and their values from a place on, and answers the place after them.
fn add_two<'a>(
    name: &'a [u8],
    octets: &'a [u8],
    next: &'a [u8],
    more: &'a [u8],
    output: &mut [u8],
    place: usize,
) -> usize
    requires { place + (length name.now + 2 * length octets.now + (length next.now + 2 * length more.now)) ≤ length output.old }
    ensures { Added (named name.now octets.now ++ named next.now more.now) output.old place result output.new }
{
    let next_at = add_named(name, octets, output, place);
    add_named(next, more, output, next_at)
}

// Puts what every challenge has.
pub(crate) fn put_results(opc: &[u8], results: Results, output: &mut [u8]) -> usize
    requires { (length opc.now ≡ 16) × (145 ≤ length output.old) }
    ensures { AtFront (results_text opc.now results.res results.ck results.ik results.ak) output.old result output.new }
{
    let ck_at = add_two(b"OPc ", opc, b" RES ", &results.res, output, 0);
    let ak_at = add_two(b" CK ", &results.ck, b" IK ", &results.ik, output, ck_at);
    add_named(b" AK ", &results.ak, output, ak_at)
}

// Puts MAC-A and MAC-S from a place on, and answers the place after them.
pub(crate) fn add_codes(codes: Codes, output: &mut [u8], place: usize) -> usize
    requires { place + 46 ≤ length output.old }
    ensures { Added (codes_text codes.network codes.phone) output.old place result output.new }
{
    add_two(
        b" MAC-A ",
        &codes.network,
        b" MAC-S ",
        &codes.phone,
        output,
        place,
    )
}
