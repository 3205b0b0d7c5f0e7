//! The rows of `SHOW pool_nodes`.
ghost use Rattle.std.specs.Prelude.{◌≡◌, Some, IfOk};
ghost use Rattle.std.specs.Fmt.{decimal};
ghost use Rattle.pg_messages.specs.declared.server.ServerMessage.TheVariants.{RowDescription};
ghost use Rattle.wire_reply.specs.Rows.{IsMessage};
ghost use Rattle.wire_nodes.specs.Nodes.{AreNodeRows, IsNodeRow, TellsLowest, TellsNodes, column, columns, is_main, is_up, node_cells, role_of, status_of};

use pg_messages::{Field, ServerMessage};
use pg_values::{ColType, oid_of};
use pool_base::{BackendId, BackendSet, List, NoMemory, Text};
use pool_config::Node;
use std::alloc::Global;
use wire_reply::message_bytes;

fn field(alloc: Global, name: &str) -> Result<Field, NoMemory>
    ensures { IfOk result (λ field. field ≡ column name.now) }
{
    Ok(Field {
        name: List::from_slice(alloc, name.as_bytes())?,
        table: 0,
        column: 0,
        kind: oid_of(ColType::Text),
        size: -1,
        modifier: -1,
        format: 0,
    })
}

/// The columns, all texts.
fn fields(alloc: Global) -> Result<List<Field>, NoMemory>
    ensures { IfOk result (λ fields. fields ≡ columns) }
{
    let mut fields = List::new(alloc);
    fields.push(field(alloc, "node_id")?)?;
    fields.push(field(alloc, "hostname")?)?;
    fields.push(field(alloc, "port")?)?;
    fields.push(field(alloc, "status")?)?;
    fields.push(field(alloc, "lb_weight")?)?;
    fields.push(field(alloc, "role")?)?;
    Ok(fields)
}

fn description(alloc: Global) -> Result<List<u8>, NoMemory>
    ensures { IfOk result (IsMessage (RowDescription columns)) }
{
    let fields = fields(alloc)?;
    let bytes = message_bytes(alloc, &ServerMessage::RowDescription { fields })?;
    Ok(bytes)
}

fn text(alloc: Global, text: &str) -> Result<Option<List<u8>>, NoMemory>
    ensures { IfOk result (λ cell. cell ≡ Some text.now) }
{
    Ok(Some(List::from_slice(alloc, text.as_bytes())?))
}

fn number(alloc: Global, number: u64) -> Result<Option<List<u8>>, NoMemory>
    ensures { IfOk result (λ cell. cell ≡ Some (decimal number)) }
{
    let written = Text::from_string(format!(in alloc; "{number}")?);
    let cell = text(alloc, written.as_str())?;
    Ok(cell)
}

fn status_of(up: bool) -> &'static str
    ensures { result.now ≡ status_of up }
{
    if up { "up" } else { "down" }
}

fn role_of(main: bool) -> &'static str
    ensures { result.now ≡ role_of main }
{
    if main { "main" } else { "replica" }
}

fn cells(
    alloc: Global,
    at: usize,
    node: &Node,
    up: bool,
    main: bool,
) -> Result<List<Option<List<u8>>>, NoMemory>
    ensures { IfOk result (λ cells. cells ≡ node_cells at node.now up main) }
{
    let mut values = List::new(alloc);
    values.push(number(alloc, at as u64)?)?;
    values.push(text(alloc, node.host.as_str())?)?;
    values.push(number(alloc, u64::from(node.port))?)?;
    values.push(text(alloc, status_of(up))?)?;
    values.push(number(alloc, u64::from(node.weight))?)?;
    values.push(text(alloc, role_of(main))?)?;
    Ok(values)
}

fn is_up(attached: BackendSet, at: usize) -> bool
    ensures { result ≡ is_up attached.bits at }
{
    if at >= 8 {
        return false;
    }
    match BackendId::from_number(at as u8) {
        Some(b) => attached.has(b),
        None => false,
    }
}

fn is_main(lowest: Option<BackendId>, at: usize) -> bool
    ensures { result ≡ is_main lowest at }
{
    match lowest {
        Some(b) => usize::from(b.number) == at,
        None => false,
    }
}

fn lowest_of(attached: BackendSet) -> Option<BackendId>
    ensures { TellsLowest attached.bits result }
{
    attached.lowest()
}

fn row(
    alloc: Global,
    at: usize,
    node: &Node,
    attached: BackendSet,
    lowest: Option<BackendId>,
) -> Result<List<u8>, NoMemory>
    ensures { IfOk result (IsNodeRow attached.bits lowest at node.now) }
{
    let values = cells(alloc, at, node, is_up(attached, at), is_main(lowest, at))?;
    let bytes = message_bytes(alloc, &ServerMessage::DataRow { values })?;
    Ok(bytes)
}

fn rows(
    alloc: Global,
    nodes: &[Node],
    attached: BackendSet,
    lowest: Option<BackendId>,
) -> Result<List<u8>, NoMemory>
    ensures { IfOk result (AreNodeRows attached.bits lowest 0 nodes.now) }
{
    let mut bytes = List::new(alloc);
    for (at, node) in nodes.iter().enumerate() {
        bytes.append(row(alloc, at, node, attached, lowest)?)?;
    }
    Ok(bytes)
}

/// The columns and a row for each configured backend, in rising order.
pub fn nodes_bytes(
    alloc: Global,
    nodes: &[Node],
    attached: BackendSet,
) -> Result<List<u8>, NoMemory>
    ensures { IfOk result (TellsNodes attached.bits nodes.now) }
{
    let mut bytes = description(alloc)?;
    let rows = rows(alloc, nodes, attached, lowest_of(attached))?;
    bytes.append(rows)?;
    Ok(bytes)
}
