//! A program for Graphviz.

use crate::arrows::{Arrow, arrows};
use crate::list::label;
use crate::outcome::Written;
use fancy_vm::vm::{Insn, Prog};
use std::alloc::{AllocError, Global};

/// How the node of an instruction is drawn.
fn style(insn: &Insn) -> &'static str {
    match insn {
        Insn::Delegate(_) | Insn::AbsentRepeater(_) =>
            ", style=\"rounded,filled\", fillcolor=\"#fff2cc\"",
        Insn::End => ", style=filled, fillcolor=\"#d5e8d4\"",
        _ => "",
    }
}

fn push_graph(out: &mut String, prog: &Prog, arrows: &[Arrow]) -> Written {
    out.push_str("digraph program {\n  node [shape=box, fontname=monospace];\n")?;
    for (place, insn) in prog.body().iter().enumerate() {
        let (label, style) = (label(*out.allocator(), place, insn)?, style(insn));
        writeln!(out, "  {place} [label={label:?}{style}];")?;
    }
    for arrow in arrows {
        let Arrow {
            from,
            to,
            is_branch,
        } = *arrow;
        let style = if is_branch { " [style=dashed]" } else { "" };
        writeln!(out, "  {from} -> {to}{style};")?;
    }
    out.push_str("}\n")
}

/// The program as a graph: an instruction a node, branches dashed.
pub fn dot(alloc: Global, prog: &Prog) -> Result<String, AllocError> {
    let arrows = arrows(alloc, prog)?;
    let mut out = String::new(alloc);
    push_graph(&mut out, prog, &arrows)?;
    Ok(out)
}
