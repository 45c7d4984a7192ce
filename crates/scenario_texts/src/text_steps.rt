//! Steps on the texts of a configuration.
ghost use Rattle.std.specs.Prelude.{◌≤◌, IfOk, length};

use crate::shown_conf::{ShownConf, ShownFault};
use crate::shown_graph::{ShownGraph, ShownRefusal};
use crate::shown_items::{ShownItems, ShownStop};
use anyhow::{Result, bail};
use conf_lexer::{LexFault, Token, TokenKind, lex};
use conf_sections::{Conf, ConfFault, read_conf};
use conf_walk::{Texts, WalkFault, read_texts};
use conf_words::{ValueFault, value_of};
use image_graph::{Graph, GraphFault, graph};
use scenario_words::{Arguments, Contents, Setting};
use std::alloc::Global;

/// The most tokens that are shown themselves.
const SHOWN: usize = 100;

/// A step on a text.
#[derive(Debug, Drop)]
pub enum TextStep {
    /// The tokens of a text.
    Tokens { text: Contents },
    /// The value of a token with that spelling.
    Value { kind: TokenKind, spelling: String },
    /// The items of a configuration's texts.
    Items { name: String },
    /// What a configuration says.
    Conf { name: String },
    /// The images that are built of a configuration.
    Graph { name: String },
    /// The number of an image that is built.
    Find { name: String, image: String },
}

impl TextStep {
    /// The step of a verb, where it is one of these.
    pub fn read(alloc: Global, verb: &str, words: &mut Arguments) -> Result<Option<TextStep>> {
        let step = match verb {
            "tokens" => TextStep::Tokens {
                text: Contents::read(alloc, words)?,
            },
            "value" => TextStep::Value {
                kind: read_kind(words)?,
                spelling: words.text("a spelling")?,
            },
            "items" => TextStep::Items {
                name: words.text("a file")?,
            },
            "conf" => TextStep::Conf {
                name: words.text("a file")?,
            },
            "graph" => TextStep::Graph {
                name: words.text("a file")?,
            },
            "find" => TextStep::Find {
                name: words.text("a file")?,
                image: words.text("an image")?,
            },
            _ => return Ok(None),
        };
        Ok(Some(step))
    }

    /// Does it, and says what came of it.
    pub fn play(self, setting: &mut Setting) -> Result<String> {
        match self {
            TextStep::Tokens { text } => tokens(setting, &text),
            TextStep::Value { kind, spelling } => value(setting, kind, &spelling),
            TextStep::Items { name } => show_items(setting, &name),
            TextStep::Conf { name } => show_conf(setting, &name),
            TextStep::Graph { name } => show_graph(setting, &name),
            TextStep::Find { name, image } => find(setting, &name, &image),
        }
    }
}

fn read_kind(words: &mut Arguments) -> Result<TokenKind> {
    let kind = words.text("a kind of token")?;
    match kind.as_str() {
        "Word" => Ok(TokenKind::Word),
        "Double" => Ok(TokenKind::Double),
        "Single" => Ok(TokenKind::Single),
        "OpenBrace" => Ok(TokenKind::OpenBrace),
        "CloseBrace" => Ok(TokenKind::CloseBrace),
        "OpenParen" => Ok(TokenKind::OpenParen),
        "CloseParen" => Ok(TokenKind::CloseParen),
        "Equals" => Ok(TokenKind::Equals),
        "PlusEquals" => Ok(TokenKind::PlusEquals),
        "Comma" => Ok(TokenKind::Comma),
        _ => bail!("no such kind of token: {kind}"),
    }
}

fn tokens(setting: &Setting, text: &Contents) -> Result<String> {
    let bytes = text.bytes(setting.alloc, &setting.files)?;
    match lex(setting.alloc, &bytes) {
        Ok(tokens) => show_tokens(setting.alloc, tokens.as_slice()),
        Err(LexFault::BadText { place }) => {
            Ok(format!(in setting.alloc; "no tokens: BadText place={place}")?)
        }
        Err(LexFault::NoMemory) => bail!("out of memory"),
    }
}

/// Each token as its kind, its place and its length.
fn show_tokens(alloc: Global, tokens: &[Token]) -> Result<String> {
    let count = tokens.len();
    let mut line = format!(in alloc; "{count} tokens")?;
    if count <= SHOWN {
        for token in tokens {
            let kind = token.kind;
            let at = token.span.at;
            let len = token.span.len;
            write!(line, " {kind:?}@{at}+{len}")?;
        }
    }
    Ok(line)
}

fn value(setting: &Setting, kind: TokenKind, spelling: &str) -> Result<String> {
    match value_of(setting.alloc, &setting.vars, kind, spelling) {
        Ok(name) => {
            let text = name.text();
            Ok(format!(in setting.alloc; "value {text:?}")?)
        }
        Err(ValueFault::Unset { var }) => {
            let text = var.text();
            Ok(format!(in setting.alloc; "no value: Unset var={text}")?)
        }
        Err(ValueFault::NoMemory) => bail!("out of memory"),
    }
}

// A configuration is large to let go of, so each is dropped in one place, behind the line that is made of it.

fn show_items(setting: &mut Setting, name: &str) -> Result<String> {
    let read = read_texts(setting.alloc, &mut setting.files, name, &setting.vars);
    items_line(setting.alloc, &read)
}

fn items_line(alloc: Global, read: &std::result::Result<Texts, WalkFault>) -> Result<String> {
    match read {
        Ok(texts) => {
            let shown = ShownItems(texts);
            Ok(format!(in alloc; "items{shown}")?)
        }
        Err(fault) => {
            let shown = ShownStop(fault);
            Ok(format!(in alloc; "no items: {shown}")?)
        }
    }
}

fn show_conf(setting: &mut Setting, name: &str) -> Result<String> {
    let read = read_conf(setting.alloc, &mut setting.files, name, &setting.vars);
    conf_line(setting.alloc, &read)
}

fn conf_line(alloc: Global, read: &std::result::Result<Conf, ConfFault>) -> Result<String> {
    match read {
        Ok(conf) => {
            let shown = ShownConf(conf);
            Ok(format!(in alloc; "conf{shown}")?)
        }
        Err(fault) => no_conf(alloc, fault),
    }
}

fn no_conf(alloc: Global, fault: &ConfFault) -> Result<String> {
    let shown = ShownFault(fault);
    Ok(format!(in alloc; "no conf: {shown}")?)
}

fn show_graph(setting: &mut Setting, name: &str) -> Result<String> {
    let read = read_conf(setting.alloc, &mut setting.files, name, &setting.vars);
    graph_of(setting.alloc, &read)
}

fn graph_of(alloc: Global, read: &std::result::Result<Conf, ConfFault>) -> Result<String> {
    match read {
        Ok(conf) => graph_line(alloc, &graph(alloc, conf)),
        Err(fault) => no_conf(alloc, fault),
    }
}

fn graph_line(alloc: Global, made: &std::result::Result<Graph, GraphFault>) -> Result<String> {
    match made {
        Ok(graph) => {
            let shown = ShownGraph(graph);
            Ok(format!(in alloc; "graph{shown}")?)
        }
        Err(fault) => {
            let shown = ShownRefusal(fault);
            Ok(format!(in alloc; "no graph: {shown}")?)
        }
    }
}

fn find(setting: &mut Setting, name: &str, image: &str) -> Result<String> {
    let read = read_conf(setting.alloc, &mut setting.files, name, &setting.vars);
    find_in(setting.alloc, &read, image)
}

fn find_in(
    alloc: Global,
    read: &std::result::Result<Conf, ConfFault>,
    image: &str,
) -> Result<String> {
    match read {
        Ok(conf) => number_line(alloc, &graph(alloc, conf), image),
        Err(_) => bail!("no conf"),
    }
}

fn number_line(
    alloc: Global,
    made: &std::result::Result<Graph, GraphFault>,
    image: &str,
) -> Result<String>
    requires { IfOk made.now (λ graph. length graph.specs ≤ 64) }
{
    let Ok(graph) = made else {
        bail!("no graph");
    };
    match graph.find(image) {
        Some(number) => Ok(format!(in alloc; "image {image} is number {number}")?),
        None => Ok(format!(in alloc; "image {image} isn't built")?),
    }
}
