ghost use Rattle.std.specs.Prelude.{ℕ, List, [], ◌∷◌, ◌++◌};
ghost use Rattle.std.specs.Int.{to_be_bytes, w32, w64};
ghost use Rattle.sha2.specs.Hashers.{Holds256};
ghost use Rattle.conc_data_digests.specs.Stamps.{act_coding, coding, item_coding, request_coding, sized};

use conc_types::{Act, Item, Moment, Order, RequestId};
use sha2::{Digest, Sha256};

// Takes in a number in 4 bytes.
fn add_word(hasher: &mut Sha256, number: u32)
    ensures { (m : List ℕ) → Holds256 hasher.old m
        → Holds256 hasher.new (m ++ to_be_bytes w32 number) }
{
    hasher.update(number.to_be_bytes());
}

// Takes in bytes with their number before them, in 4 bytes.
fn add_sized(hasher: &mut Sha256, bytes: &[u8])
    ensures { (m : List ℕ) → Holds256 hasher.old m → Holds256 hasher.new (m ++ sized bytes.now) }
{
    let length = (bytes.len() as u64).to_be_bytes();
    hasher.update(&length[4..]);
    hasher.update(bytes);
}

// Takes in a moment's seconds in 8 bytes.
fn add_moment(hasher: &mut Sha256, moment: Moment)
    ensures { (m : List ℕ) → Holds256 hasher.old m
        → Holds256 hasher.new (m ++ to_be_bytes w64 moment.seconds) }
{
    hasher.update(moment.seconds.to_be_bytes());
}

// Takes in one byte.
fn add_byte(hasher: &mut Sha256, byte: u8)
    ensures { (m : List ℕ) → Holds256 hasher.old m → Holds256 hasher.new (m ++ byte ∷ []) }
{
    hasher.update([byte]);
}

fn add_item(hasher: &mut Sha256, item: Item)
    ensures { (m : List ℕ) → Holds256 hasher.old m
        → Holds256 hasher.new (m ++ item_coding item) }
{
    match item {
        Item::Program(number) => {
            add_byte(hasher, 1);
            add_word(hasher, number);
        }
        Item::Set(number) => {
            add_byte(hasher, 2);
            add_word(hasher, number);
        }
    }
}

// Takes in the code of a command and its request.
fn add_request(hasher: &mut Sha256, code: u8, request: RequestId)
    ensures { (m : List ℕ) → Holds256 hasher.old m
        → Holds256 hasher.new (m ++ request_coding code request) }
{
    add_byte(hasher, code);
    add_word(hasher, request.number);
}

fn add_act(hasher: &mut Sha256, act: &Act)
    ensures { (m : List ℕ) → Holds256 hasher.old m
        → Holds256 hasher.new (m ++ act_coding act.now) }
{
    match act {
        Act::Submit {
            item,
            priority,
            start,
            user,
            domain,
            argument,
        } => {
            add_byte(hasher, 1);
            add_item(hasher, *item);
            add_byte(hasher, *priority);
            add_moment(hasher, *start);
            add_sized(hasher, user.as_bytes());
            add_sized(hasher, domain.as_bytes());
            add_sized(hasher, argument.as_slice());
        }
        Act::Hold { request } => add_request(hasher, 2, *request),
        Act::Unhold { request } => add_request(hasher, 3, *request),
        Act::Cancel { request } => add_request(hasher, 4, *request),
        Act::Terminate { request } => add_request(hasher, 5, *request),
    }
}

/// Takes in the coding of a command.
pub(crate) fn add_order(hasher: &mut Sha256, order: &Order)
    ensures { (m : List ℕ) → Holds256 hasher.old m
        → Holds256 hasher.new (m ++ coding order.now) }
{
    add_moment(hasher, order.at);
    add_act(hasher, &order.act);
}
