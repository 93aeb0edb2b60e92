//! The printers of a schedule: each appends lines to a buffer.
ghost use Rattle.std.specs.Prelude.{◌≡◌, ◌≤◌, ◌++◌, ◌∷◌, [], length, codes, decimal, map, IsTrue, OnOk, OnErr};
ghost use Rattle.std.specs.List.{flat_map};
ghost use Rattle.tcs_terms.specs.declared.limits.TheConstants.{MAX_NODES};
ghost use Rattle.text_words.specs.PayloadText.{payload_text};
ghost use Rattle.tcs_terms.specs.Appends.{Begins};
ghost use Rattle.schedule_text.specs.Printable.{has_line};
ghost use Rattle.schedule_text.specs.ScriptText.{settle_line};
ghost use Rattle.schedule_text.specs.Text.{spaced_number, numbers_text, version_line, certifier_line, shards_line, node_line, node_lines, config_line, first_lines, setup_lines, call_line, event_line, with_feed};

use tcs_terms::{Config, Event, Input, NodeId, OutOfMemory, Payload, Setup, ShardId};
use text_words::{print_payload, put, put_number, put_txn};

/// A number, with the space before it.
fn put_spaced(out: &mut Vec<u8>, number: u64) -> Result<(), OutOfMemory>
    ensures ok { OnOk result (out.new.items ≡ out.old.items ++ spaced_number number) }
    ensures err { OnErr result (Begins out.old.items out.new.items) }
{
    put(out, b" ")?;
    put_number(out, number)
}

/// Numbers, with a space before each.
fn put_numbers(out: &mut Vec<u8>, numbers: &[u8]) -> Result<(), OutOfMemory>
    ensures ok { OnOk result (out.new.items ≡ out.old.items ++ numbers_text numbers.now) }
    ensures err { OnErr result (Begins out.old.items out.new.items) }
{
    'numbers: for number in numbers {
        put_spaced(out, u64::from(*number))?;
    }
    Ok(())
}

fn put_version(out: &mut Vec<u8>, setup: &Setup) -> Result<(), OutOfMemory>
    ensures ok { OnOk result (out.new.items ≡ out.old.items ++ with_feed (version_line setup.now.version)) }
    ensures err { OnErr result (Begins out.old.items out.new.items) }
{
    put(out, b"tcs")?;
    put_spaced(out, u64::from(setup.version()))?;
    put(out, b"\n")
}

fn put_certifier(out: &mut Vec<u8>, setup: &Setup) -> Result<(), OutOfMemory>
    ensures ok { OnOk result (out.new.items ≡ out.old.items ++ with_feed (certifier_line setup.now.rule)) }
    ensures err { OnErr result (Begins out.old.items out.new.items) }
{
    put(out, b"certifier ")?;
    put(out, setup.rule().word().as_bytes())?;
    put(out, b"\n")
}

fn put_shards(out: &mut Vec<u8>, setup: &Setup) -> Result<(), OutOfMemory>
    ensures ok { OnOk result (out.new.items ≡ out.old.items ++ with_feed (shards_line setup.now.shards)) }
    ensures err { OnErr result (Begins out.old.items out.new.items) }
{
    put(out, b"shards")?;
    put_spaced(out, u64::from(setup.shards()))?;
    put(out, b"\n")
}

/// The lines before the nodes.
fn put_first_lines(out: &mut Vec<u8>, setup: &Setup) -> Result<(), OutOfMemory>
    ensures ok { OnOk result (out.new.items ≡ out.old.items ++ flat_map with_feed (first_lines setup.now)) }
    ensures err { OnErr result (Begins out.old.items out.new.items) }
{
    put_version(out, setup)?;
    put_certifier(out, setup)?;
    put_shards(out, setup)
}

fn put_node(out: &mut Vec<u8>, node: u8, shard: ShardId) -> Result<(), OutOfMemory>
    ensures ok { OnOk result (out.new.items ≡ out.old.items ++ with_feed (node_line node shard)) }
    ensures err { OnErr result (Begins out.old.items out.new.items) }
{
    put(out, b"node")?;
    put_spaced(out, u64::from(node))?;
    put_spaced(out, u64::from(shard))?;
    put(out, b"\n")
}

/// The lines of nodes 1 to at most 64.
fn put_nodes(out: &mut Vec<u8>, nodes: &[ShardId]) -> Result<(), OutOfMemory>
    requires { length nodes.now ≤ MAX_NODES }
    ensures ok { OnOk result (out.new.items ≡ out.old.items ++ flat_map with_feed (node_lines 1 nodes.now)) }
    ensures err { OnErr result (Begins out.old.items out.new.items) }
{
    let mut node = 1;
    'nodes: for shard in nodes {
        put_node(out, node, *shard)?;
        node += 1;
    }
    Ok(())
}

fn put_config(out: &mut Vec<u8>, config: &Config) -> Result<(), OutOfMemory>
    ensures ok { OnOk result (out.new.items ≡ out.old.items ++ with_feed (config_line config.now)) }
    ensures err { OnErr result (Begins out.old.items out.new.items) }
{
    put(out, b"config")?;
    put_spaced(out, u64::from(config.shard()))?;
    put_spaced(out, u64::from(config.leader()))?;
    put_numbers(out, config.members())?;
    put(out, b"\n")
}

fn put_configs(out: &mut Vec<u8>, configs: &[Config]) -> Result<(), OutOfMemory>
    ensures ok { OnOk result (out.new.items ≡ out.old.items ++ flat_map with_feed (map config_line configs.now)) }
    ensures err { OnErr result (Begins out.old.items out.new.items) }
{
    'configs: for config in configs {
        put_config(out, config)?;
    }
    Ok(())
}

fn put_parts(out: &mut Vec<u8>, setup: &Setup) -> Result<(), OutOfMemory>
    ensures ok { OnOk result (out.new.items ≡ out.old.items ++ flat_map with_feed (node_lines 1 setup.now.nodes ++ map config_line setup.now.configs)) }
    ensures err { OnErr result (Begins out.old.items out.new.items) }
{
    put_nodes(out, setup.nodes())?;
    put_configs(out, setup.configs())
}

/// Appends the lines of a schedule up to `events`, that line among them. After want of memory the buffer begins with
/// what it held.
#[tactic(auto, unfolding(crate::specs::Text::setup_lines))]
pub fn print_setup(setup: &Setup, out: &mut Vec<u8>) -> Result<(), OutOfMemory>
    ensures ok { OnOk result (out.new.items ≡ out.old.items ++ flat_map with_feed (setup_lines setup.now)) }
    ensures err { OnErr result (Begins out.old.items out.new.items) }
{
    put_first_lines(out, setup)?;
    put_parts(out, setup)?;
    put(out, b"events\n")
}

/// The line of a call, without its line feed.
#[tactic(auto, unfolding(crate::specs::Text::call_line))]
fn put_call(out: &mut Vec<u8>, node: NodeId, input: &Input) -> Result<(), OutOfMemory>
    ensures ok { OnOk result (out.new.items ≡ out.old.items ++ call_line node input.now) }
    ensures err { OnErr result (Begins out.old.items out.new.items) }
{
    match input {
        Input::Certify(payload) => put_certify(out, node, payload),
        Input::Take(txn) => {
            put_headed(out, b"take", node)?;
            put(out, b" ")?;
            put_txn(out, *txn)
        }
        Input::Nudge => put_headed(out, b"nudge", node),
        Input::Move { shard, want } => {
            put_headed(out, b"move", node)?;
            put_spaced(out, u64::from(*shard))?;
            put_numbers(out, want.list())
        }
        Input::Lower => put_headed(out, b"lower", node),
        Input::ReadName(name) => {
            put_headed(out, b"read", node)?;
            put(out, b" ")?;
            put(out, name.bytes())
        }
        Input::Ask(shard) => {
            put_headed(out, b"ask", node)?;
            put_spaced(out, u64::from(*shard))
        }
        Input::Deliver { .. } => Ok(()),
    }
}

fn put_certify(out: &mut Vec<u8>, node: NodeId, payload: &Payload) -> Result<(), OutOfMemory>
    ensures ok { OnOk result (out.new.items ≡ out.old.items ++ (codes "certify" ++ (spaced_number node ++ (codes " " ++ payload_text payload.now)))) }
    ensures err { OnErr result (Begins out.old.items out.new.items) }
{
    put_headed(out, b"certify", node)?;
    put(out, b" ")?;
    put_payload(out, payload)
}

fn put_payload(out: &mut Vec<u8>, payload: &Payload) -> Result<(), OutOfMemory>
    ensures ok { OnOk result (out.new.items ≡ out.old.items ++ payload_text payload.now) }
    ensures err { OnErr result (Begins out.old.items out.new.items) }
{
    print_payload(payload, out)
}

/// The first word of a line, and the node after it.
fn put_headed(out: &mut Vec<u8>, word: &[u8], node: NodeId) -> Result<(), OutOfMemory>
    ensures ok { OnOk result (out.new.items ≡ out.old.items ++ (word.now ++ spaced_number node)) }
    ensures err { OnErr result (Begins out.old.items out.new.items) }
{
    put(out, word)?;
    put_spaced(out, u64::from(node))
}

/// The line of an event, without its line feed.
fn put_event(out: &mut Vec<u8>, event: &Event) -> Result<(), OutOfMemory>
    ensures ok { OnOk result (out.new.items ≡ out.old.items ++ event_line event.now) }
    ensures err { OnErr result (Begins out.old.items out.new.items) }
{
    match event {
        Event::Call { node, input } => put_call(out, *node, input),
        Event::DeliverNumber(number) => {
            put(out, b"deliver")?;
            put_spaced(out, u64::from(*number))
        }
        Event::Stop(node) => put_headed(out, b"stop", *node),
    }
}

/// Whether an event has a line in a schedule: all but a delivery of a message by value, which fits no setup.
pub fn has_line(event: &Event) -> bool
    ensures { result ≡ has_line event.now }
{
    match event {
        Event::Call { input, .. } => !matches!(input, Input::Deliver { .. }),
        Event::DeliverNumber(_) | Event::Stop(_) => true,
    }
}

/// Appends the line of an event that has one. After want of memory the buffer begins with what it held.
pub fn print_event(event: &Event, out: &mut Vec<u8>) -> Result<(), OutOfMemory>
    requires { IsTrue (has_line event.now) }
    ensures ok { OnOk result (out.new.items ≡ out.old.items ++ with_feed (event_line event.now)) }
    ensures err { OnErr result (Begins out.old.items out.new.items) }
{
    put_event(out, event)?;
    put(out, b"\n")
}

/// Appends the line of a script that lets so many turns pass. After want of memory the buffer begins with what it held.
pub fn print_settle(turns: u32, out: &mut Vec<u8>) -> Result<(), OutOfMemory>
    ensures ok { OnOk result (out.new.items ≡ out.old.items ++ with_feed (settle_line turns)) }
    ensures err { OnErr result (Begins out.old.items out.new.items) }
{
    put(out, b"settle")?;
    put_spaced(out, u64::from(turns))?;
    put(out, b"\n")
}
