//! What is said of each directive.
ghost use Rattle.std.specs.Prelude.{◌≡◌};
ghost use Rattle.nc_conf.specs.declared.table.Shape.TheVariants as shapes;
ghost use Rattle.nc_conf.specs.Table.{line, block, setting, settings, location_row, listen_row, row_in, row_of, same_kind, takes_settings, stands_in};

/// A kind of block.
#[derive(Clone, Copy, Debug, PartialEq, Eq)]
pub enum Block {
    /// Outside of all braces.
    Main,
    Events,
    Http,
    Server,
    Location,
}

/// Where a directive may stand: in one kind of block, or wherever settings may.
#[derive(Clone, Copy)]
pub enum Standing {
    In(Block),
    Settings,
}

/// What the arguments of a directive may be.
#[derive(Clone, Copy)]
pub enum Shape {
    /// There are none.
    Nothing,
    Number { low: u32, high: u32 },
    Address,
    Seconds,
    Size,
    HttpWord,
    /// Ways to subscribe.
    Ways,
    /// Where subscribers begin.
    First,
    ChannelId,
    Path,
}

/// What is said of a directive: where it stands, which block it opens, how many arguments it has, what they are,
/// and how often it may stand in one block.
#[derive(Clone, Copy)]
pub struct Row {
    pub standing: Standing,
    pub opens: Option<Block>,
    pub least: usize,
    pub most: usize,
    pub shape: Shape,
    pub times: Option<usize>,
}

/// A directive that ends at its `;`, and stands once in a block.
const fn line(standing: Standing, least: usize, most: usize, shape: Shape) -> Row
    ensures { result ≡ line standing least most shape }
{
    Row {
        standing,
        opens: None,
        least,
        most,
        shape,
        times: Some(1),
    }
}

/// A directive with a block and without arguments, that stands once in a block.
const fn block_row(place: Block, opens: Block) -> Row
    ensures { result ≡ block place opens }
{
    Row {
        standing: Standing::In(place),
        opens: Some(opens),
        least: 0,
        most: 0,
        shape: Shape::Nothing,
        times: Some(1),
    }
}

/// A setting, of one argument.
const fn setting(shape: Shape) -> Row
    ensures { result ≡ setting shape }
{
    line(Standing::Settings, 1, 1, shape)
}

const fn number(low: u32, high: u32) -> Shape
    ensures { result ≡ shapes.Number low high }
{
    Shape::Number { low, high }
}

const fn location_row() -> Row
    ensures { result ≡ location_row }
{
    Row {
        standing: Standing::In(Block::Server),
        opens: Some(Block::Location),
        least: 1,
        most: 2,
        shape: Shape::Path,
        times: None,
    }
}

const fn listen_row() -> Row
    ensures { result ≡ listen_row }
{
    Row {
        standing: Standing::In(Block::Server),
        opens: None,
        least: 1,
        most: 1,
        shape: Shape::Address,
        times: Some(16),
    }
}

/// The row of a directive, if there is one of this name. The table is that of docs/CONFIGURATION.md.
pub fn row_of(name: &[u8]) -> Option<Row>
    ensures { result ≡ row_of name.now }
{
    if name == b"worker_processes".as_slice() {
        Some(line(Standing::In(Block::Main), 1, 1, number(1, 16)))
    } else if name == b"events".as_slice() {
        Some(block_row(Block::Main, Block::Events))
    } else if name == b"worker_connections".as_slice() {
        Some(line(Standing::In(Block::Events), 1, 1, number(1, 65_535)))
    } else if name == b"http".as_slice() {
        Some(block_row(Block::Main, Block::Http))
    } else if name == b"nchan_slots".as_slice() {
        Some(line(Standing::In(Block::Http), 1, 1, number(1, 4_096)))
    } else if name == b"server".as_slice() {
        Some(block_row(Block::Http, Block::Server))
    } else if name == b"listen".as_slice() {
        Some(listen_row())
    } else if name == b"location".as_slice() {
        Some(location_row())
    } else if name == b"nchan_publisher".as_slice() {
        Some(line(Standing::In(Block::Location), 0, 1, Shape::HttpWord))
    } else if name == b"nchan_subscriber".as_slice() {
        Some(line(Standing::In(Block::Location), 0, 2, Shape::Ways))
    } else if name == b"nchan_pubsub".as_slice() {
        Some(line(Standing::In(Block::Location), 0, 0, Shape::Nothing))
    } else if name == b"nchan_channel_id".as_slice() {
        Some(line(Standing::In(Block::Location), 1, 7, Shape::ChannelId))
    } else {
        setting_of(name)
    }
}

/// The row of a setting of this name.
fn setting_of(name: &[u8]) -> Option<Row>
    ensures { result ≡ row_in settings name.now }
{
    if name == b"client_max_body_size".as_slice() {
        Some(setting(Shape::Size))
    } else if name == b"nchan_message_buffer_length".as_slice() {
        Some(setting(number(0, 1_000_000)))
    } else if name == b"nchan_message_timeout".as_slice() {
        Some(setting(Shape::Seconds))
    } else if name == b"nchan_subscriber_timeout".as_slice() {
        Some(setting(Shape::Seconds))
    } else if name == b"nchan_subscriber_first_message".as_slice() {
        Some(setting(Shape::First))
    } else if name == b"nchan_max_channel_id_length".as_slice() {
        Some(setting(number(1, 1_024)))
    } else {
        None
    }
}

impl Block {
    const fn takes_settings(self) -> bool
        ensures { result ≡ takes_settings self }
    {
        match self {
            Block::Main | Block::Events => false,
            Block::Http | Block::Server | Block::Location => true,
        }
    }
}

const fn same_kind(a: Block, b: Block) -> bool
    ensures { result ≡ same_kind a b }
{
    matches!(
        (a, b),
        (Block::Main, Block::Main)
            | (Block::Events, Block::Events)
            | (Block::Http, Block::Http)
            | (Block::Server, Block::Server)
            | (Block::Location, Block::Location)
    )
}

impl Standing {
    /// Whether a directive may stand in a kind of block.
    pub const fn is_in(self, kind: Block) -> bool
        ensures { result ≡ stands_in self kind }
    {
        match self {
            Standing::In(place) => same_kind(place, kind),
            Standing::Settings => kind.takes_settings(),
        }
    }
}
