// What is answered to a line of `challenge`: the values that MILENAGE works out, or the refusal of its calls. How lines are heard is the crate `lines`.
ghost use Rattle.std.specs.Prelude.{◌≡◌, ◌≤◌, IfOk, length, refl};
ghost use Rattle.refusals.specs.Number.{number_of, refusal_of};
ghost use Rattle.lines.specs.Text.{AtFront, decimal_text};
ghost use Rattle.challenge.specs.Form.{given_by};
ghost use Rattle.challenge.specs.Answer.{given_text, answer_text, largest_answer};
ghost use Rattle.challenge.specs.Calls.{results_refusal, results_of, codes_refusal, codes_of, known, given_as};
ghost use Rattle.challenge.specs.Challenge.{challenge_rules};

use crate::texts::{Codes, Results};
use crate::{form, texts};
use lines::Program;
use refusals::Refusal;

// What ends a line.
const LINE_FEED: u8 = b'\n';

// The answer to a line not of the form.
const BAD: u8 = b'?';

// Where an answer is put: the largest, of 191 octets, and the line feed.
type Output = [u8; 192];

// What is given: K, OP (which OPc is to be made from) or OPc, RAND and, where they are wanted, SQN and AMF. The two flags are those of the definition of
// what a line gives.
#[derive(Clone, Copy)]
struct Given<'a> {
    made: bool,
    numbered: bool,
    key: &'a [u8],
    operator: &'a [u8],
    rand: &'a [u8],
    sqn: &'a [u8],
    amf: &'a [u8],
}

// RES, CK, IK and AK.
fn results_of(key: &[u8], opc: &[u8], rand: &[u8]) -> Result<Results, Refusal>
    ensures refusal { refusal_of result ≡ results_refusal key.now opc.now rand.now }
    ensures results { IfOk result (λ results. results ≡ results_of key.now opc.now rand.now) }
{
    let mut res = [0u8; 8];
    milenage::f2(key, opc, rand, &mut res)?;
    let mut ck = [0u8; 16];
    milenage::f3(key, opc, rand, &mut ck)?;
    let mut ik = [0u8; 16];
    milenage::f4(key, opc, rand, &mut ik)?;
    let mut ak = [0u8; 6];
    milenage::f5(key, opc, rand, &mut ak)?;
    Ok(Results { res, ck, ik, ak })
}

// MAC-A and MAC-S.
fn codes_of(given: Given, opc: &[u8]) -> Result<Codes, Refusal>
    ensures refusal { refusal_of result ≡ codes_refusal given.entry.key.now opc.now given.entry.rand.now given.entry.sqn.now given.entry.amf.now }
    ensures codes { IfOk result (λ codes. codes ≡ codes_of given.entry.key.now opc.now given.entry.rand.now given.entry.sqn.now given.entry.amf.now) }
{
    let mut network = [0u8; 8];
    milenage::f1(
        given.key,
        opc,
        given.rand,
        given.sqn,
        given.amf,
        &mut network,
    )?;
    let mut phone = [0u8; 8];
    milenage::f1_star(given.key, opc, given.rand, given.sqn, given.amf, &mut phone)?;
    Ok(Codes { network, phone })
}

// Puts the number of a refusal.
fn put_refusal(refusal: Refusal, output: &mut Output) -> usize
    ensures { AtFront (decimal_text (number_of refusal)) output.old result output.new }
{
    lines::decimal_of_number(refusal.number() as u32, output).unwrap()
}

// Puts the answer to a challenge whose OPc is known.
fn put_known(given: Given, opc: &[u8], output: &mut Output) -> usize
    ensures { AtFront (given_text (known given.entry.numbered given.entry.key.now opc.now given.entry.rand.now given.entry.sqn.now given.entry.amf.now)) output.old result output.new }
{
    let results = match results_of(given.key, opc, given.rand) {
        Ok(results) => results,
        Err(refusal) => return put_refusal(refusal, output),
    };
    if !given.numbered {
        return texts::put_results(opc, results, output);
    }
    let codes = match codes_of(given, opc) {
        Ok(codes) => codes,
        Err(refusal) => return put_refusal(refusal, output),
    };
    let end = texts::put_results(opc, results, output);
    texts::add_codes(codes, output, end)
}

// Puts the answer to a challenge. Where OP is given, OPc is made from it first.
fn put_given(given: Given, output: &mut Output) -> usize
    ensures { AtFront (given_text (given_as given.entry)) output.old result output.new }
{
    if !given.made {
        return put_known(given, given.operator, output);
    }
    let mut opc = [0u8; 16];
    let made = milenage::opc(given.key, given.operator, &mut opc);
    if let Err(refusal) = made {
        return put_refusal(refusal, output);
    }
    put_known(given, &opc, output)
}

// Reads what a line of the form gives, and puts the answer.
fn put_read(line: &[u8], output: &mut Output) -> usize
    requires { length line.now ≤ 160 }
    ensures { AtFront (given_text (given_by line.now)) output.old result output.new }
{
    let mut key = [0u8; form::MOST];
    let mut operator = [0u8; form::MOST];
    let mut rand = [0u8; form::MOST];
    let mut sqn = [0u8; form::MOST];
    let mut amf = [0u8; form::MOST];
    let key_size = form::put_value(line, 0, &mut key);
    let operator_size = form::put_value(line, 2, &mut operator);
    let rand_size = form::put_value(line, 3, &mut rand);
    let sqn_size = form::put_value(line, 4, &mut sqn);
    let amf_size = form::put_value(line, 5, &mut amf);
    let given = Given {
        made: form::gives_op(line),
        numbered: form::count_fields(line) == 6,
        key: &key[..key_size],
        operator: &operator[..operator_size],
        rand: &rand[..rand_size],
        sqn: &sqn[..sqn_size],
        amf: &amf[..amf_size],
    };
    put_given(given, output)
}

// Puts the text that answers a line, without its line end.
fn put_text(line: &[u8], output: &mut Output) -> usize
    ensures { AtFront (answer_text line.now) output.old result output.new }
{
    if !form::is_challenge(line) {
        output[0] = BAD;
        return 1;
    }
    put_read(line, output)
}

// The program: nothing goes from line to line.
#[derive(Drop)]
pub(crate) struct Challenge;

impl Program for Challenge {
    ghost State = { Unit {0} };

    ghost state = { λ _. tt };

    ghost rules = { challenge_rules };

    ghost ROOM = { largest_answer };

    // 191 octets and the line feed.
    const ROOM: usize = 192;

    fn answer(&mut self, line: &[u8], output: &mut [u8]) -> usize {
        let output: &mut Output = output.first_chunk_mut().unwrap();
        let size = put_text(line, output);
        output[size] = LINE_FEED;
        size + 1
    }

    ghost room = { refl };
}
