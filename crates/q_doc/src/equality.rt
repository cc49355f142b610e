//! `==` and the comparisons of texts, paths, nodes and documents.
ghost use Rattle.std.specs.Prelude.{refl};
ghost use Rattle.std.specs.Cmp.{po, partial_equiv_from_equiv};
ghost use Rattle.std.specs.Ordering.{eq_by_cmp, as_partial_cmp};
ghost use Rattle.q_doc.specs.Order.{tree_cmp};
ghost use Rattle.q_doc.specs.OrderLaws.{tree_cmp_total, tree_eq_equiv};
ghost use Rattle.std.specs.Str.{bytes_eq};
ghost use Rattle.q_doc.specs.TextOrder.{text_cmp, text_cmp_total, text_eq_equiv, text_eq-tie, path_cmp, path_cmp_total, path_eq, path_eq_equiv, path_eq-tie};

use crate::doc::Doc;
use crate::node::Node;
use crate::node_text::NodeText;
use crate::order::order_of;
use crate::path::Path;
use crate::text::Text;
use std::cmp::Ordering;

impl PartialEq for Node {
    ghost eq = { eq_by_cmp tree_cmp };

    ghost laws = { partial_equiv_from_equiv tree_eq_equiv };

    fn eq(&self, other: &Node) -> bool {
        order_of(self, other).is_eq()
    }
}

impl Eq for Node {
    ghost laws = { tree_eq_equiv };
}

impl PartialOrd for Node {
    ghost partial_cmp = { as_partial_cmp tree_cmp };

    ghost laws = { po tree_cmp_total (λ x y. refl) };

    fn partial_cmp(&self, other: &Node) -> Option<Ordering> {
        Some(order_of(self, other))
    }
}

impl Ord for Node {
    ghost cmp = { tree_cmp };

    ghost total = { tree_cmp_total };

    ghost matches_partial_cmp = { λ x y. refl };

    ghost matches_eq = { λ x y. refl };

    fn cmp(&self, other: &Node) -> Ordering {
        order_of(self, other)
    }
}

impl PartialEq for Doc {
    ghost eq = { eq_by_cmp tree_cmp };

    ghost laws = { partial_equiv_from_equiv tree_eq_equiv };

    fn eq(&self, other: &Doc) -> bool {
        order_of(&self.root.node, &other.root.node).is_eq()
    }
}

impl Eq for Doc {
    ghost laws = { tree_eq_equiv };
}

impl PartialEq for NodeText {
    ghost eq = { bytes_eq };

    ghost laws = { partial_equiv_from_equiv text_eq_equiv };

    fn eq(&self, other: &NodeText) -> bool {
        self.as_slice() == other.as_slice()
    }
}

impl Eq for NodeText {
    ghost laws = { text_eq_equiv };
}

impl PartialOrd for NodeText {
    ghost partial_cmp = { as_partial_cmp text_cmp };

    ghost laws = { po text_cmp_total text_eq-tie };

    fn partial_cmp(&self, other: &NodeText) -> Option<Ordering> {
        Some(self.cmp(other))
    }
}

impl Ord for NodeText {
    ghost cmp = { text_cmp };

    ghost total = { text_cmp_total };

    ghost matches_partial_cmp = { λ x y. refl };

    ghost matches_eq = { text_eq-tie };

    fn cmp(&self, other: &NodeText) -> Ordering {
        self.as_slice().cmp(other.as_slice())
    }
}

impl PartialEq for Text {
    ghost eq = { bytes_eq };

    ghost laws = { partial_equiv_from_equiv text_eq_equiv };

    fn eq(&self, other: &Text) -> bool {
        self.as_slice() == other.as_slice()
    }
}

impl Eq for Text {
    ghost laws = { text_eq_equiv };
}

impl PartialOrd for Text {
    ghost partial_cmp = { as_partial_cmp text_cmp };

    ghost laws = { po text_cmp_total text_eq-tie };

    fn partial_cmp(&self, other: &Text) -> Option<Ordering> {
        Some(self.cmp(other))
    }
}

impl Ord for Text {
    ghost cmp = { text_cmp };

    ghost total = { text_cmp_total };

    ghost matches_partial_cmp = { λ x y. refl };

    ghost matches_eq = { text_eq-tie };

    fn cmp(&self, other: &Text) -> Ordering {
        self.as_slice().cmp(other.as_slice())
    }
}

impl PartialEq for Path {
    ghost eq = { path_eq };

    ghost laws = { partial_equiv_from_equiv path_eq_equiv };

    fn eq(&self, other: &Path) -> bool {
        self.segments == other.segments
    }
}

impl Eq for Path {
    ghost laws = { path_eq_equiv };
}

impl PartialOrd for Path {
    ghost partial_cmp = { as_partial_cmp path_cmp };

    ghost laws = { po path_cmp_total path_eq-tie };

    fn partial_cmp(&self, other: &Path) -> Option<Ordering> {
        Some(self.cmp(other))
    }
}

impl Ord for Path {
    ghost cmp = { path_cmp };

    ghost total = { path_cmp_total };

    ghost matches_partial_cmp = { λ x y. refl };

    ghost matches_eq = { path_eq-tie };

    fn cmp(&self, other: &Path) -> Ordering {
        self.segments.cmp(&other.segments)
    }
}
