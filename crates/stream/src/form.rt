// The form of a line of `stream`: M, key, INPUT and direction, with one space between.
ghost use Rattle.std.specs.Prelude.{◌≡◌};
ghost use Rattle.stream.specs.Form.{request_of};

// What stands after the digits of M has a fixed size.
const AFTER_M: usize = 44;

// The largest M that a line can ask.
const M_LIMIT: u64 = 1520;

// What a line asks.
#[derive(Clone, Copy)]
pub(crate) struct Request {
    pub m: u32,
    pub key: [u8; 16],
    pub input: u32,
    pub direction: u8,
}

// What a line asks, where it is of the form.
pub(crate) fn request_of(line: &[u8]) -> Option<Request>
    ensures { result ≡ request_of line.now }
{
    if line.len() < AFTER_M + 1 {
        return None;
    }
    if AFTER_M + 4 < line.len() {
        return None;
    }
    let size = line.len() - AFTER_M;
    if line[size] != b' ' {
        return None;
    }
    if line[size + 33] != b' ' {
        return None;
    }
    if line[size + 42] != b' ' {
        return None;
    }
    let Ok(m) = lines::decimal(&line[..size]) else {
        return None;
    };
    if M_LIMIT < m {
        return None;
    }
    let mut key = [0u8; 16];
    let Ok(_) = lines::octets_of_hex(&line[size + 1..size + 33], &mut key) else {
        return None;
    };
    let Ok(input) = lines::hexadecimal(&line[size + 34..size + 42]) else {
        return None;
    };
    let direction = line[size + 43];
    if direction < b'0' {
        return None;
    }
    if b'1' < direction {
        return None;
    }
    Some(Request {
        m: m as u32,
        key,
        input: input as u32,
        direction: direction - b'0',
    })
}
