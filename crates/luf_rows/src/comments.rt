//! Where `format` writes the comments of a source.

use crate::formats::{USUAL, each};
use std::test::Fail;

/// A comment before each token, and one at the end.
pub(crate) const BETWEEN: [(&str, &str); 17] = [
    (
        "--[[a]]local--[[b]]a--[[c]],--[[d]]b--[[e]]<--[[f]]const--[[g]]>--[[h]]=--[[i]]1--[[j]],--[[k]]2--[[l]]",
        "--[[a]] local --[[b]] a --[[c]] , --[[d]] b --[[e]] < --[[f]] const --[[g]] > --[[h]] = --[[i]] 1 --[[j]] , --[[k]] 2 --[[l]]\n",
    ),
    (
        "--[[a]]a--[[b]].--[[c]]b--[[d]],--[[e]]c--[[f]][--[[g]]d--[[h]]]--[[i]]=--[[j]](--[[k]]e--[[l]])--[[m]],--[[n]]f--[[o]].--[[p]]g--[[q]]",
        "--[[a]] a --[[b]] . --[[c]] b --[[d]] , --[[e]] c --[[f]] [ --[[g]] d --[[h]] ] --[[i]] = --[[j]] ( --[[k]] e --[[l]] ) --[[m]] , --[[n]] f --[[o]] . --[[p]] g --[[q]]\n",
    ),
    (
        "--[[a]]a--[[b]]:--[[c]]b--[[d]](--[[e]]c--[[f]],--[[g]]d--[[h]])--[[i]](--[[j]])--[[k]]",
        "--[[a]] a --[[b]] : --[[c]] b --[[d]] ( --[[e]] c --[[f]] , --[[g]] d --[[h]] ) --[[i]] ( --[[j]] ) --[[k]]\n",
    ),
    (
        "--[[a]]x--[[b]]=--[[c]]- --[[d]]a--[[e]]+--[[f]]not--[[g]]b--[[h]]^--[[i]]c--[[j]]",
        "--[[a]] x --[[b]] = --[[c]] - --[[d]] a --[[e]] + --[[f]] not --[[g]] b --[[h]] ^ --[[i]] c --[[j]]\n",
    ),
    (
        "--[[a]]return--[[b]](--[[c]]f--[[d]](--[[e]])--[[f]])--[[g]],--[[h]]...--[[i]];--[[j]]",
        "--[[a]] return --[[b]] ( --[[c]] f --[[d]] ( --[[e]] ) --[[f]] ) --[[g]] , --[[h]] ... --[[i]] --[[j]]\n",
    ),
    (
        "--[[a]]::--[[b]]n--[[c]]::--[[d]]goto--[[e]]n--[[f]]",
        "--[[a]] :: --[[b]] n --[[c]] :: --[[d]]\ngoto --[[e]] n --[[f]]\n",
    ),
    (
        "--[[a]]do--[[b]]f--[[c]](--[[d]])--[[e]]end--[[f]]",
        "--[[a]] do --[[b]]\n\tf --[[c]] ( --[[d]] ) --[[e]]\nend --[[f]]\n",
    ),
    (
        "--[[a]]while--[[b]]a--[[c]]do--[[d]]break--[[e]]end--[[f]]",
        "--[[a]] while --[[b]] a --[[c]] do --[[d]]\n\tbreak --[[e]]\nend --[[f]]\n",
    ),
    (
        "--[[a]]repeat--[[b]]f--[[c]](--[[d]])--[[e]]until--[[f]]a--[[g]]",
        "--[[a]] repeat --[[b]]\n\tf --[[c]] ( --[[d]] ) --[[e]]\nuntil --[[f]] a --[[g]]\n",
    ),
    (
        "--[[a]]if--[[b]]a--[[c]]then--[[d]]f--[[e]](--[[f]])--[[g]]elseif--[[h]]b--[[i]]then--[[j]]else--[[k]]g--[[l]](--[[m]])--[[n]]end--[[o]]",
        "--[[a]] if --[[b]] a --[[c]] then --[[d]]\n\tf --[[e]] ( --[[f]] ) --[[g]]\nelseif --[[h]] b --[[i]] then --[[j]]\nelse --[[k]]\n\tg --[[l]] ( --[[m]] ) --[[n]]\nend --[[o]]\n",
    ),
    (
        "--[[a]]for--[[b]]i--[[c]]=--[[d]]1--[[e]],--[[f]]2--[[g]],--[[h]]3--[[i]]do--[[j]]end--[[k]]",
        "--[[a]] for --[[b]] i --[[c]] = --[[d]] 1 --[[e]] , --[[f]] 2 --[[g]] , --[[h]] 3 --[[i]] do --[[j]]\nend --[[k]]\n",
    ),
    (
        "--[[a]]for--[[b]]k--[[c]],--[[d]]v--[[e]]in--[[f]]a--[[g]],--[[h]]b--[[i]]do--[[j]]f--[[k]](--[[l]])--[[m]]end--[[n]]",
        "--[[a]] for --[[b]] k --[[c]] , --[[d]] v --[[e]] in --[[f]] a --[[g]] , --[[h]] b --[[i]] do --[[j]]\n\tf --[[k]] ( --[[l]] ) --[[m]]\nend --[[n]]\n",
    ),
    (
        "--[[a]]function--[[b]]a--[[c]].--[[d]]b--[[e]]:--[[f]]c--[[g]](--[[h]]d--[[i]],--[[j]]...--[[k]])--[[l]]end--[[m]]",
        "--[[a]] function --[[b]] a --[[c]] . --[[d]] b --[[e]] : --[[f]] c --[[g]] ( --[[h]] d --[[i]] , --[[j]] ... --[[k]] ) --[[l]]\nend --[[m]]\n",
    ),
    (
        "--[[a]]local--[[b]]function--[[c]]f--[[d]](--[[e]])--[[f]]g--[[g]](--[[h]])--[[i]]end--[[j]]",
        "--[[a]] local --[[b]] function --[[c]] f --[[d]] ( --[[e]] ) --[[f]]\n\tg --[[g]] ( --[[h]] ) --[[i]]\nend --[[j]]\n",
    ),
    (
        "--[[a]]x--[[b]]=--[[c]]function--[[d]](--[[e]]a--[[f]])--[[g]]f--[[h]](--[[i]])--[[j]]end--[[k]]",
        "--[[a]] x --[[b]] = --[[c]] function --[[d]] ( --[[e]] a --[[f]] ) --[[g]]\n\tf --[[h]] ( --[[i]] ) --[[j]]\nend --[[k]]\n",
    ),
    (
        "--[[a]]x--[[b]]=--[[c]]{--[[d]]a--[[e]];--[[f]]b--[[g]]=--[[h]]c--[[i]],--[[j]]}--[[k]]",
        "--[[a]] x --[[b]] = --[[c]] { --[[d]] a, --[[e]] --[[f]] b --[[g]] = --[[h]] c --[[i]] --[[j]] } --[[k]]\n",
    ),
    (
        "--[[a]]f--[[b]](--[[c]])--[[d]];--[[e]];--[[f]](--[[g]]g--[[h]])--[[i]](--[[j]])--[[k]];--[[l]]",
        "--[[a]] f --[[b]] ( --[[c]] ) --[[d]] --[[e]] --[[f]]\n;( --[[g]] g --[[h]] ) --[[i]] ( --[[j]] ) --[[k]] --[[l]]\n",
    ),
];

/// A comment behind each token, which ends its line.
pub(crate) const BEHIND: [(&str, &str); 9] = [
    (
        "do--a\nf--b\n(--c\n)--d\nend--e\n",
        "do --a\n\tf --b\n\t( --c\n\t) --d\nend --e\n",
    ),
    (
        "if--a\na--b\nthen--c\nf--d\n(--e\n)--f\nelse--g\nh--h\n(--i\n)--j\nend--k\n",
        "if --a\na --b\nthen --c\n\tf --d\n\t( --e\n\t) --f\nelse --g\n\th --h\n\t( --i\n\t) --j\nend --k\n",
    ),
    (
        "function--a\nf--b\n(--c\na--d\n,--e\nb--f\n)--g\nreturn--h\na--i\n;--j\nend--k\n",
        "function --a\nf --b\n( --c\n\ta --d\n\t, --e\n\tb --f\n) --g\n\treturn --h\n\ta --i\n\t--j\nend --k\n",
    ),
    (
        "x--a\n=--b\n{--c\na--d\n,--e\nb--f\n=--g\n1--h\n;--i\n}--j\n",
        "x --a\n= --b\n{ --c\n\ta, --d\n\t--e\n\tb --f\n\t= --g\n\t1, --h\n\t--i\n} --j\n",
    ),
    (
        "f--a\n(--b\na--c\n,--d\nb--e\n)--f\n;--g\ng--h\n(--i\n)--j\n",
        "f --a\n( --b\n\ta --c\n\t, --d\n\tb --e\n) --f\n--g\ng --h\n( --i\n) --j\n",
    ),
    (
        "local--a\na--b\n,--c\nb--d\n=--e\n1--f\n,--g\n2--h\n",
        "local --a\na --b\n, --c\nb --d\n= --e\n1 --f\n, --g\n2 --h\n",
    ),
    (
        "for--a\nk--b\n,--c\nv--d\nin--e\np--f\ndo--g\nend--h\n",
        "for --a\nk --b\n, --c\nv --d\nin --e\np --f\ndo --g\nend --h\n",
    ),
    (
        "x--a\n=--b\na--c\n+--d\nb--e\n*--f\n- --g\nc--h\n",
        "x --a\n= --b\na --c\n\t+ --d\n\tb --e\n\t\t* --f\n\t\t- --g\n\t\tc --h\n",
    ),
    (
        "return--a\n(--b\nf--c\n(--d\n)--e\n)--f\n",
        "return --a\n( --b\nf --c\n( --d\n) --e\n) --f\n",
    ),
];

/// Comments at borders of blocks, round what is dropped, and in lists.
pub(crate) const REMARKS: [(&str, &str); 21] = [
    ("x=1 --[[a]] ; --b\n\n;y=2", "x = 1 --[[a]] --b\n\ny = 2\n"),
    ("x=1;--a\n--b\n;--c\ny=2", "x = 1 --a\n--b\n--c\ny = 2\n"),
    ("x=1 --c", "x = 1 --c\n"),
    ("--only\n", "--only\n"),
    ("\n\n--[[only]]\n\n", "--[[only]]\n"),
    ("--a\n\n\n--b\nx=1\n\n--c\n\n", "--a\n\n--b\nx = 1\n\n--c\n"),
    (
        "--[[a]]--[[b]]x=1--[[c]]--d\n",
        "--[[a]] --[[b]] x = 1 --[[c]] --d\n",
    ),
    (
        "x=1 --[[a]] y=2\n--[[b]] z=3",
        "x = 1 --[[a]]\ny = 2\n--[[b]] z = 3\n",
    ),
    (
        "x=1 --a  \ny=2 --[[b\n  c]]\nz=3 --[==[d]==] w=4",
        "x = 1 --a\ny = 2 --[[b\n  c]]\nz = 3 --[==[d]==]\nw = 4\n",
    ),
    ("\t  x=1--\n--\n", "x = 1 --\n--\n"),
    (
        "do --x\nend do --[[x]] end do\n--x\nend",
        "do --x\nend\ndo --[[x]]\nend\ndo\n\t--x\nend\n",
    ),
    (
        "do--x\n\n--y\n\n--z\n\n\nend",
        "do --x\n\t--y\n\n\t--z\nend\n",
    ),
    ("do --a\n\nx=1 --b\n\nend", "do --a\n\tx = 1 --b\nend\n"),
    (
        "if a then --b\nelseif c then\n--d\nelse --[[e]] end",
        "if a then --b\nelseif c then\n\t--d\nelse --[[e]]\nend\n",
    ),
    (
        "function f()--a\nend function g(--[[b]])end function h(a--c\n)end",
        "function f() --a\nend\nfunction g( --[[b]] ) end\nfunction h(\n\ta --c\n) end\n",
    ),
    ("return --a\n", "return --a\n"),
    ("do return --a\n;--b\nend", "do\n\treturn --a\n\t--b\nend\n"),
    (
        "f(--a\n)g(--[[b]])t={--c\n}u={--[[d]]}",
        "f( --a\n)\ng( --[[b]] )\nt = { --c\n}\nu = { --[[d]] }\n",
    ),
    (
        "f(aaaa,--a\nbbbb,--b\ncccc--c\n)",
        "f(\n\taaaa, --a\n\tbbbb, --b\n\tcccc --c\n)\n",
    ),
    (
        "t={a,--a\n\n\n--b\nb--c\n;--d\n\n}",
        "t = {\n\ta, --a\n\t--b\n\tb, --c\n\t--d\n}\n",
    ),
    ("a=b--[[c]]+--d\ne", "a = b --[[c]]\n\t+ --d\n\te\n"),
];

#[test]
fn comments(rt: HostRuntime) -> Result<(), Fail> {
    let alloc = rt.alloc();
    each(&rt, alloc, &USUAL, &BETWEEN)?;
    each(&rt, alloc, &USUAL, &BEHIND)?;
    each(&rt, alloc, &USUAL, &REMARKS)
}
