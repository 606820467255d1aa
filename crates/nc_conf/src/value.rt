//! What the arguments of directives stand for: numbers, times, sizes, addresses, channel ids, paths.
ghost use Rattle.std.specs.Prelude.{◌≡◌, ◌≤◌, ◌<◌, length, IsTrue, IfSome};
ghost use Rattle.std.specs.List.{list_all};
ghost use Rattle.std.specs.Char.{is_ascii_digit};
ghost use Rattle.nc_conf.specs.Value.{digits_value, are_digits, whole, if_within, within, number, time_unit, size_unit, in_unit, seconds, size, port_len, port, address, is_name_byte, begins_name, begins_arg, is_id};

use std::marker::Model;

fn all_digits(text: &[u8]) -> bool
    ensures { result ≡ list_all is_ascii_digit text.now }
{
    text.iter().all(|byte| byte.is_ascii_digit())
}

fn are_digits(text: &[u8]) -> bool
    ensures { result ≡ are_digits text.now }
{
    0 < text.len() && all_digits(text)
}

fn if_within(low: u32, high: u32, n: u64) -> Option<u32>
    ensures is { result ≡ if_within low high n }
    ensures between { IfSome result (λ v. (low ≤ v) × (v ≤ high)) }
{
    if u64::from(low) <= n && n <= u64::from(high) {
        Some(n as u32)
    } else {
        None
    }
}

/// The value of digits, if it is within bounds.
fn digits_within(low: u32, high: u32, digits: &[u8]) -> Option<u32>
    requires { IsTrue (list_all is_ascii_digit digits.now) }
    ensures is { result ≡ if_within low high (digits_value digits.now) }
    ensures between { IfSome result (λ v. (low ≤ v) × (v ≤ high)) }
{
    let mut value = 0u64;
    for digit in digits {
        value = value * 10 + u64::from(*digit - b'0');
        if value > u64::from(high) {
            return None;
        }
    }
    if_within(low, high, value)
}

/// The value of a text of digits, however many, if it is within bounds.
fn whole(low: u32, high: u32, text: &[u8]) -> Option<u32>
    ensures is { result ≡ within low high (whole text.now) }
    ensures between { IfSome result (λ v. (low ≤ v) × (v ≤ high)) }
{
    if are_digits(text) {
        digits_within(low, high, text)
    } else {
        None
    }
}

/// A number of 1 to 20 digits, if it is within bounds.
pub fn number(low: u32, high: u32, text: &[u8]) -> Option<u32>
    ensures is { result ≡ number low high text.now }
    ensures between { IfSome result (λ v. (low ≤ v) × (v ≤ high)) }
{
    if text.len() <= 20 {
        whole(low, high, text)
    } else {
        None
    }
}

fn time_unit(byte: u8) -> Option<u32>
    ensures is { result ≡ time_unit byte }
    ensures positive { IfSome result (λ unit. 0 < unit) }
{
    match byte {
        b's' => Some(1),
        b'm' => Some(60),
        b'h' => Some(3_600),
        b'd' => Some(86_400),
        b'w' => Some(604_800),
        _ => None,
    }
}

fn size_unit(byte: u8) -> Option<u32>
    ensures is { result ≡ size_unit byte }
    ensures positive { IfSome result (λ unit. 0 < unit) }
{
    match byte {
        b'k' | b'K' => Some(1_024),
        b'm' | b'M' => Some(1_048_576),
        _ => None,
    }
}

/// The value of a text in a unit, if it is within bounds.
fn in_unit(low: u32, high: u32, text: &[u8], unit: Option<u32>) -> Option<u32>
    requires some { 0 < length text.now }
    requires positive { IfSome unit (λ n. 0 < n) }
    ensures is { result ≡ within low high (in_unit text.now unit) }
    ensures between { IfSome result (λ v. (low ≤ v) × (v ≤ high)) }
{
    let Some(unit) = unit else {
        return whole(low, high, text);
    };
    let count = whole(0, high, &text[..text.len() - 1])?;
    if_within(low, high, u64::from(count) * u64::from(unit))
}

/// A time in seconds: digits and a unit, or none; at most 1,000,000,000.
pub fn seconds(text: &[u8]) -> Option<u32>
    ensures is { result ≡ seconds text.now }
    ensures between { IfSome result (λ v. v ≤ 1000000000) }
{
    if text.is_empty() {
        return None;
    }
    in_unit(0, 1_000_000_000, text, time_unit(text[text.len() - 1]))
}

/// A size in bytes: digits and a unit, or none; 1 to 65,536.
pub fn size(text: &[u8]) -> Option<u32>
    ensures is { result ≡ size text.now }
    ensures between { IfSome result (λ v. (1 ≤ v) × (v ≤ 65536)) }
{
    if text.is_empty() {
        return None;
    }
    in_unit(1, 65_536, text, size_unit(text[text.len() - 1]))
}

/// An address that is listened at, in the text that names it.
#[derive(Drop)]
pub struct Address<'t> {
    pub host: &'t [u8],
    pub port: u16,
}

impl<'t> Model for Address<'t> {
    ghost use Rattle.nc_types.specs.Config.{ListenAt, IsPort};

    ghost Value = { ListenAt };

    ghost view = { λ a. record { host = a.host.now; port = a.port } };

    ghost invariant = { λ a. IsPort a.port };
}

/// How many bytes stand behind the last colon, or all.
fn port_len(text: &[u8]) -> usize
    ensures len { result ≡ port_len text.now }
    ensures within { result ≤ length text.now }
{
    let mut n = text.len();
    while n > 0 && text[n - 1] != b':' {
        n -= 1;
    }
    text.len() - n
}

fn port(text: &[u8]) -> Option<u16>
    ensures is { result ≡ port text.now }
    ensures between { IfSome result (λ v. (1 ≤ v) × (v ≤ 65535)) }
{
    let port = number(1, 65_535, text)?;
    Some(port as u16)
}

/// A port, or a host, a colon and a port.
pub fn address_of(text: &[u8]) -> Option<Address<'_>>
    ensures { result ≡ address text.now }
{
    let port_len = port_len(text);
    if port_len == text.len() {
        let port = port(text)?;
        return Some(Address {
            host: b"0.0.0.0",
            port,
        });
    }
    let host_len = text.len() - port_len - 1;
    if host_len == 0 {
        return None;
    }
    let port = port(&text[host_len + 1..])?;
    Some(Address {
        host: &text[..host_len],
        port,
    })
}

/// A letter, a digit or `_`.
pub fn is_name_byte(byte: u8) -> bool
    ensures { result ≡ is_name_byte byte }
{
    byte.is_ascii_alphanumeric() || byte == b'_'
}

fn begins_name(text: &[u8]) -> bool
    ensures { result ≡ begins_name text.now }
{
    match text {
        [] => false,
        [byte, ..] => is_name_byte(*byte),
    }
}

/// Whether `arg_` and a name stand at the front.
fn begins_arg(text: &[u8]) -> bool
    ensures { result ≡ begins_arg text.now }
{
    text.len() > 4 && &text[..4] == b"arg_".as_slice() && begins_name(&text[4..])
}

/// Whether each `$` stands before an argument.
pub fn is_id(text: &[u8]) -> bool
    ensures { result ≡ is_id text.now }
{
    for (i, byte) in text.iter().enumerate() {
        if *byte == b'$' && !begins_arg(&text[i + 1..]) {
            return false;
        }
    }
    true
}
