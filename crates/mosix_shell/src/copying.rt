// A script of its own for home.
ghost use Rattle.std.specs.Prelude.{◌≡◌, IfOk};

use call_table::{NoMemory, Text, Words};
use node_event::{Order, Script, ScriptLine};
use std::alloc::Global;

fn copied_words(alloc: Global, words: &[Text]) -> Result<Words, NoMemory>
    ensures { IfOk result (λ copy. copy ≡ words.now) }
{
    let mut copy = Words::new(alloc);
    for word in words {
        copy.push(Text::new(alloc, word.as_str())?)?;
    }
    Ok(copy)
}

fn copied_order(alloc: Global, order: &Order) -> Result<Order, NoMemory>
    ensures { IfOk result (λ copy. copy ≡ order.now) }
{
    let copy = match order {
        Order::Run { words } => Order::Run {
            words: copied_words(alloc, words.as_slice())?,
        },
        Order::Kill { pid, signal } => Order::Kill {
            pid: *pid,
            signal: *signal,
        },
        Order::Move { pid, to } => Order::Move { pid: *pid, to: *to },
        Order::Feed { text } => Order::Feed {
            text: text.copy(alloc)?,
        },
        Order::Eof => Order::Eof,
        Order::Wait { pid } => Order::Wait { pid: *pid },
        Order::After { pid, count } => Order::After {
            pid: *pid,
            count: *count,
        },
        Order::Held { pid } => Order::Held { pid: *pid },
        Order::Slots { count } => Order::Slots { count: *count },
    };
    Ok(copy)
}

fn copied_line(alloc: Global, ordered: &ScriptLine) -> Result<ScriptLine, NoMemory>
    ensures { IfOk result (λ copy. copy ≡ ordered.now) }
{
    Ok(ScriptLine {
        line: ordered.line,
        order: copied_order(alloc, &ordered.order)?,
    })
}

/// The same orders.
pub fn copied_script(alloc: Global, orders: &[ScriptLine]) -> Result<Script, NoMemory>
    ensures { IfOk result (λ copy. copy ≡ orders.now) }
{
    let mut copy = Script::new(alloc);
    for ordered in orders {
        copy.push(copied_line(alloc, ordered)?)?;
    }
    Ok(copy)
}
