//! What in particular is at fault in a line: what the reader had in its hands when it refused the line. It is
//! for whoever puts the fault into words, and no clause speaks of it.
use orc_call::Put;
use orc_json::JsonFault;
use orc_path::{Item, Path};
use orc_schema_nodes::Schema;
use orc_statements::SchemaFault;
use orc_template::TemplateFault;
use orc_text::{Row, Text};
use orc_yang::{Stmt, YangFault};

/// What in particular is at fault in a line.
#[derive(Drop)]
pub enum Detail {
    /// The rule and the text of the line say all.
    Plain,
    /// Rule `size`: what passes a limit.
    Size(Excess),
    /// Rule `path`: the text is no path.
    NoPath(Text),
    /// Rule `path`: it is a path, and none that the line may have.
    Path(WrongPath),
    /// Rule `value`: the text after ` = ` isn't one of a value.
    NoValue(Text),
    /// Rule `value`: a key of the path, or the item there, is no value of its type.
    Value(WrongItem),
    /// Rule `json`: the JSON text is no body of the service.
    Json(WrongBody),
    /// Rule `yang`: the block is no module.
    Yang(WrongModule),
    /// Rule `schema`: the line names this module twice.
    Repeated(Text),
    /// Rule `schema`: the modules make no schema.
    Schema(WrongSchema),
    /// Rule `template`: the block is no template of the list.
    Template(WrongTemplate),
    /// Rule `opening`: a configuration that isn't valid or isn't accepted.
    Opening(WrongOpening),
}

/// What passes a limit.
#[derive(Drop)]
pub enum Excess {
    /// The line has too many bytes.
    Line,
    /// The bundle has too many bytes, of which the first one too many is in the line.
    Bundle,
    /// A name, of a device, a type, a module, a template, a caller or a service.
    Name(Text),
    /// A path as it is written: it, a step, a name or a key of it.
    Path(Path),
    /// A path in canonical form, in which it would be stored.
    StoredPath(Path),
    /// A value: its text, read.
    Value(Text),
    /// A value in canonical form, in which it would be stored.
    StoredValue(Text),
    /// An identifier in the text of a module, in a statement whose keyword stands so many lines below the first one
    /// of the block.
    Identifier { name: Text, below: u64 },
    /// An item of a body: its path, or its value.
    BodyItem(Put),
    /// A body has so many items.
    BodyItems(u64),
    /// So many devices stand above the line, which has one more.
    Devices(u64),
    /// So many callers are named above the line, which names one more.
    Callers(u64),
    /// So many steps stand above the line, which is one more.
    Steps(u64),
    /// So many seconds can't pass in one line `tick`.
    Seconds(u64),
}

/// What stands before a path in its line, or above the line, and passes a limit.
#[derive(Clone, Copy)]
pub enum Passed<'a> {
    /// A name.
    Name(&'a str),
    /// So many steps.
    Steps(u64),
}

/// What a line needs of its path.
#[derive(Clone, Copy, PartialEq, Eq)]
pub enum PathForm {
    /// That of an entry: nothing stands after it.
    Entry,
    /// That of a leaf: a value stands after it.
    Leaf,
    /// That of an entry or of a leaf.
    Item,
    /// That of a list or a leaf-list, with no keys in its last step.
    List,
    /// That of a list that a template may have.
    Template,
    /// That of an entry of a list that has a template.
    Service,
    /// Any that the schema has; the last step may lack its keys.
    Node,
}

/// A path that a line may not have.
#[derive(Drop)]
pub struct WrongPath {
    /// The path as it is written.
    pub path: Path,
    /// What the line needs.
    pub form: PathForm,
    /// The schema under which it was looked at: that of the data or of the device, or the plain one where no such
    /// device is declared.
    pub schema: Schema,
    /// Why no line of this form may name it, whatever the schema has.
    pub bar: Bar,
}

/// Why no line of a form may name a path of the data.
#[derive(Drop)]
pub enum Bar {
    /// It may: what is at fault is seen from the path, the form and the schema.
    Free,
    /// The orchestrator keeps what stands there itself.
    Kept,
    /// It is at, below or above a list that has a template: one of these.
    Served(Row<Path>),
    /// It is no entry of a list that has a template: of these.
    Unlisted(Row<Path>),
    /// An item of the data is declared at or under it, at this path.
    Used(Path),
}

/// A path and its item, of which a key or the value has a text that is none of its type.
#[derive(Drop)]
pub struct WrongItem {
    pub path: Path,
    /// The item, where the line has one.
    pub item: Option<Item>,
    /// The schema under which it was looked at.
    pub schema: Schema,
}

/// A JSON text that is no body of a service.
#[derive(Drop)]
pub struct WrongBody {
    /// The entry of the service, in canonical form.
    pub entry: Path,
    /// The JSON text.
    pub text: Text,
    /// The schema of the data.
    pub schema: Schema,
    /// What is at fault in the text; none where what it says is refused as a whole.
    pub fault: Option<JsonFault>,
}

/// A block that is no module.
#[derive(Drop)]
pub struct WrongModule {
    /// The text of the block: its lines, each ended by a line feed.
    pub text: Row<u8>,
    pub fault: ModuleFault,
}

/// Why the text of a block is no module.
#[derive(Drop)]
pub enum ModuleFault {
    /// It isn't statements.
    Statements(YangFault),
    /// It is so many statements, and not the one `module` with a name.
    Count(u64),
}

/// Modules that make no schema.
#[derive(Drop)]
pub struct WrongSchema {
    pub fault: SchemaFault,
    pub place: BuildPlace,
}

/// Modules, and where in them the build of their schema stood.
#[derive(Drop)]
pub struct BuildPlace {
    /// The modules, in the order in which they were looked at.
    pub modules: Row<Stmt>,
    /// Of each the place among those that are declared, from 0; none of the built-in one.
    pub places: Row<Option<u64>>,
    /// Of each module that is declared the number of its line `yang N`, by that place.
    pub lines: Row<u64>,
    /// The place in `modules` of the one in which the build stood.
    pub module: u64,
    /// Where the statement stands at which it stood, in bytes from the beginning of that module's text.
    pub at: u64,
    /// The number of the node at which it stood; none before the walk over the nodes.
    pub node: Option<u64>,
}

/// A block that is no template of its list.
#[derive(Drop)]
pub struct WrongTemplate {
    /// The text of the block: its lines, each ended by a line feed.
    pub text: Row<u8>,
    pub list: Path,
    /// The schema of the data.
    pub schema: Schema,
    pub fault: TemplateFault,
}

/// A configuration at the opening that breaks a rule.
#[derive(Drop)]
pub struct WrongOpening {
    /// The device whose base it is; none for the data.
    pub device: Option<Text>,
    pub breach: Breach,
}

/// What a configuration breaks.
#[derive(Drop)]
pub enum Breach {
    /// A rule of the schema, one of `orc_check`, at a path.
    Schema { path: Path, rule: u8 },
    /// The most entries that a list may have.
    Max(Path, u64),
    /// A leaf has the text that it may not have.
    Forbid(Path, Text),
}
