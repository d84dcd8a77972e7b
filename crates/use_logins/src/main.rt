//! The logins of a service: a token is open from when somebody logs in, is touched each time that it is used, and goes
//! when it is closed or was not used for too long. The contracts say what is found after each call, by the map's laws.
#![tactic(auto)]

ghost use Rattle.std.specs.Prelude.{◌≡◌, Some, None, List, ℕ, bytes_eq, if◌then◌else◌, is_none, is_some};
ghost use Rattle.std.specs.Prelude.{IfOk, OnErr, OnOk, filter, length, nat_le, not, option_map, suc, ◌+◌};
ghost use Rattle.art_map.specs.Laws.{kept_value};
ghost use Rattle.use_logins.specs.Logins.{last_seen};

use art_map::TreeMap;
use art_map::laws::keys_ascend;
use std::alloc::{AllocError, Global};
use std::io;

/// What a login is known by.
type Token = [u8; 4];

/// When each open login was last seen.
type Logins = TreeMap<Token, u64, 16>;

/// When the login of a token was last seen, if it is open.
fn seen(logins: &Logins, token: &Token) -> Option<u64>
    ensures { result ≡ last_seen token.now logins.now.pairs }
{
    logins.get(token).copied()
}

/// Opens a login, which is seen now, and answers whether it was not open. Every other one is as before.
fn open(logins: &mut Logins, token: Token, time: u64) -> Result<bool, AllocError>
    ensures new { IfOk result (λ new. new ≡ is_none (last_seen token logins.old.pairs)) }
    ensures seen { OnOk result ((other : List ℕ) → last_seen other logins.new.pairs
        ≡ (if bytes_eq token other then Some time else last_seen other logins.old.pairs)) }
    ensures many { OnOk result (length logins.new.pairs
        ≡ (if is_some (last_seen token logins.old.pairs) then length logins.old.pairs
        else suc (length logins.old.pairs))) }
    ensures err { OnErr result (logins.new.pairs ≡ logins.old.pairs) }
{
    // The keys ascend, so that a token has one login.
    keys_ascend(logins);
    match logins.insert(token, time) {
        Ok(old) => Ok(old.is_none()),
        Err(_) => Err(AllocError),
    }
}

/// Closes a login, and answers whether it was open. Every other one is as before.
fn close(logins: &mut Logins, token: &Token) -> Result<bool, AllocError>
    ensures was { IfOk result (λ was. was ≡ is_some (last_seen token.now logins.old.pairs)) }
    ensures gone { OnOk result ((other : List ℕ) → last_seen other logins.new.pairs
        ≡ (if bytes_eq token.now other then None else last_seen other logins.old.pairs)) }
    ensures many { OnOk result (length logins.new.pairs
        + (if is_some (last_seen token.now logins.old.pairs) then 1 else 0) ≡ length logins.old.pairs) }
    ensures err { OnErr result (logins.new.pairs ≡ logins.old.pairs) }
{
    keys_ascend(logins);
    let old = logins.remove(token)?;
    Ok(old.is_some())
}

/// Notes that a login was used, if it is open, and answers whether it is. No other changes, and none goes.
fn touch(logins: &mut Logins, token: &Token, time: u64) -> bool
    ensures was { result ≡ is_some (last_seen token.now logins.old.pairs) }
    ensures seen { (other : List ℕ) → last_seen other logins.new.pairs
        ≡ (if bytes_eq token.now other then option_map (λ t. time) (last_seen other logins.old.pairs)
        else last_seen other logins.old.pairs) }
    ensures many { length logins.new.pairs ≡ length logins.old.pairs }
{
    match logins.get_mut(token) {
        Some(seen) => {
            *seen = time;
            true
        }
        None => false,
    }
}

/// Closes the logins that were last seen before a time. Every other one is as before, and none is new.
fn expire(logins: &mut Logins, oldest: u64) -> Result<(), AllocError>
    ensures seen { OnOk result ((other : List ℕ) → last_seen other logins.new.pairs
        ≡ kept_value (nat_le oldest) (last_seen other logins.old.pairs)) }
    ensures many { OnOk result (length logins.new.pairs
        + length (filter (λ login. not (nat_le oldest login.1)) logins.old.pairs) ≡ length logins.old.pairs) }
{
    // The keys ascend, so that a token has one login.
    keys_ascend(logins);
    logins.retain(|_token, seen| oldest <= *seen)
}

/// A token: four bytes.
fn token_of(text: &str) -> Option<Token> {
    match text.as_bytes() {
        [a, b, c, d] => Some([*a, *b, *c, *d]),
        _ => None,
    }
}

/// Carries out a line `open TIME TOKEN`, `use TIME TOKEN`, `close TOKEN`, `seen TOKEN` or `expire TIME`, and gives its
/// answer.
fn answer(alloc: Global, logins: &mut Logins, line: &str) -> Result<String, AllocError> {
    let words: Vec<&str> = line.split_whitespace().collect(alloc)?;
    match words.as_slice() {
        ["open", time, token] => match (time.parse::<u64>(), token_of(token)) {
            (Ok(time), Some(token)) => match open(logins, token, time)? {
                true => format!(in alloc; "open"),
                false => format!(in alloc; "was open"),
            },
            _ => format!(in alloc; "not understood"),
        },
        ["use", time, token] => match (time.parse::<u64>(), token_of(token)) {
            (Ok(time), Some(token)) => match touch(logins, &token, time) {
                true => format!(in alloc; "welcome"),
                false => format!(in alloc; "log in first"),
            },
            _ => format!(in alloc; "not understood"),
        },
        ["close", token] => match token_of(token) {
            Some(token) => match close(logins, &token)? {
                true => format!(in alloc; "closed"),
                false => format!(in alloc; "was not open"),
            },
            None => format!(in alloc; "not understood"),
        },
        ["seen", token] => match token_of(token) {
            Some(token) => match seen(logins, &token) {
                Some(time) => format!(in alloc; "{time}"),
                None => format!(in alloc; "not open"),
            },
            None => format!(in alloc; "not understood"),
        },
        ["expire", time] => match time.parse::<u64>() {
            Ok(time) => {
                let before = logins.len();
                expire(logins, time)?;
                let gone = before.saturating_sub(logins.len());
                format!(in alloc; "{gone} expired")
            }
            Err(_) => format!(in alloc; "not understood"),
        },
        _ => format!(in alloc; "not understood"),
    }
}

fn main(rt: HostRuntime) -> io::Result<()> {
    let mut logins = TreeMap::new(rt.alloc());
    for line in rt.lines(rt.alloc()) {
        let line = line?;
        let told = answer(rt.alloc(), &mut logins, line.as_str())?;
        println!(rt; "{line}: {told}")?;
    }
    Ok(())
}
